// From a look to the styles of a member (document 02, T-12): its areas and borders by value, no bytes.
#![tactic(auto)]

mod alignment; // alignments and margins
mod area_styles; // the eight areas
mod border_styles; // the nineteen borders
pub mod colors; // of backgrounds and borders, and their parts
mod font; // size and style

ghost use Rattle.std.specs.Prelude.{◌≡◌};
ghost use Rattle.styles.specs.Styles as spec;

use crate::area_styles::areas_of;
use crate::border_styles::borders_of;
use look::Look;
use store::Name;

// An area's style: the name of its typeface by place and length in the look's file, its size as the bits of a float, its colors as those of a
// look, its margins in pixels.
#[derive(Clone, Copy)]
pub struct Area {
    pub typeface: Name,
    pub size: u32,
    pub style: u32,
    pub underline: bool,
    pub halign: u32,
    pub valign: u32,
    pub fg_color: u32,
    pub bg_color: u32,
    pub left_margin: u32,
    pub right_margin: u32,
    pub top_margin: u32,
    pub bottom_margin: u32,
}

// In the order of a member.
#[derive(Clone, Copy)]
pub struct Areas {
    pub title: Area,
    pub caption: Area,
    pub footer: Area,
    pub corner: Area,
    pub column_labels: Area,
    pub row_labels: Area,
    pub data: Area,
    pub layers: Area,
}

#[derive(Clone, Copy)]
pub struct Border {
    pub stroke: u32,
    pub color: u32,
}

#[derive(Clone, Copy)]
pub struct Frame {
    pub left: Border,
    pub top: Border,
    pub right: Border,
    pub bottom: Border,
}

#[derive(Clone, Copy)]
pub struct Pair {
    pub horizontal: Border,
    pub vertical: Border,
}

// In the order of their types.
#[derive(Clone, Copy)]
pub struct Borders {
    pub title: Border,
    pub outer: Frame,
    pub inner: Frame,
    pub data_left: Border,
    pub data_top: Border,
    pub dimension_rows: Pair,
    pub dimension_columns: Pair,
    pub category_rows: Pair,
    pub category_columns: Pair,
}

#[derive(Clone, Copy)]
pub struct Styles {
    pub areas: Areas,
    pub borders: Borders,
}

// The styles of a look.
pub fn styles_of(look: Look) -> Styles
    ensures { result ≡ spec.styles look }
{
    Styles {
        areas: areas_of(look.title, look.most_areas),
        borders: borders_of(look.rows, look.columns, look.v2.frames),
    }
}
