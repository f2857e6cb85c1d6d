// The nineteen borders of a look, by name.
ghost use Rattle.std.specs.Prelude.{◌≡◌};
ghost use Rattle.styles.specs.Styles as spec;

use crate::colors::opaque;
use crate::{Border, Borders, Frame, Pair};
use look::{Frames, Lines, Separator};

// A single line, by its width.
fn single(width: u16) -> u32
    ensures { result ≡ spec.single width }
{
    match width {
        0 => 4,
        1 => 1,
        2 => 3,
        3 => 3,
        _ => 0,
    }
}

fn doubled(width: u16) -> u32
    ensures { result ≡ spec.doubled width }
{
    match width {
        0 => 5,
        1 => 5,
        _ => 0,
    }
}

// From 002's numbers to 003's, as `alignment::halign`.
fn stroke(style: u16, width: u16) -> u32
    ensures { result ≡ spec.stroke style width }
{
    match style {
        0 => single(width),
        1 => doubled(width),
        2 => 2,
        _ => 0,
    }
}

impl From<Separator> for Border {
    ghost from_gives = { λ x border. border ≡ spec.border x };

    fn from(x: Separator) -> Border {
        match x {
            Separator::NotDrawn => Border {
                stroke: 0,
                color: 0xff00_0000,
            },
            Separator::Drawn {
                color,
                style,
                width,
            } => Border {
                stroke: stroke(style, width),
                color: opaque(color),
            },
        }
    }
}

impl From<look::Frame> for Frame {
    ghost from_gives = { λ x frame. frame ≡ spec.frame x };

    fn from(x: look::Frame) -> Frame {
        Frame {
            left: x.left.into(),
            top: x.top.into(),
            right: x.right.into(),
            bottom: x.bottom.into(),
        }
    }
}

// The lines between dimensions, and those between categories, of rows or of columns.
fn dimension_of(x: Lines) -> Pair
    ensures { result ≡ spec.dimension x }
{
    Pair {
        horizontal: x.horizontal_dimension.into(),
        vertical: x.vertical_dimension.into(),
    }
}

fn category_of(x: Lines) -> Pair
    ensures { result ≡ spec.category x }
{
    Pair {
        horizontal: x.horizontal_category.into(),
        vertical: x.vertical_category.into(),
    }
}

pub fn borders_of(rows: Lines, columns: Lines, x: Frames) -> Borders
    ensures { result ≡ spec.borders rows columns x }
{
    Borders {
        title: x.title.into(),
        outer: x.outer.into(),
        inner: x.inner.into(),
        data_left: x.data_left.into(),
        data_top: x.data_top.into(),
        dimension_rows: dimension_of(rows),
        dimension_columns: dimension_of(columns),
        category_rows: category_of(rows),
        category_columns: category_of(columns),
    }
}
