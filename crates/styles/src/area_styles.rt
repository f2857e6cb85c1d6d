// The eight areas of a look, by name.
ghost use Rattle.std.specs.Prelude.{◌≡◌};
ghost use Rattle.styles.specs.Styles as spec;

use crate::alignment::{halign, margin, valign};
use crate::colors::background;
use crate::font::{size, style};
use crate::{Area, Areas};
use look::MostAreas;

impl From<look::Area> for Area {
    ghost from_gives = { λ x area. area ≡ spec.area x.color x.style };

    fn from(x: look::Area) -> Area {
        let alignment = x.style.alignment;
        let font = x.style.font;
        let typeface = x.style.typeface;
        Area {
            typeface: typeface.font_name,
            size: size(font.font_size),
            style: style(font.weight, typeface.italic),
            underline: typeface.underline,
            halign: halign(alignment.halign),
            valign: valign(alignment.valign),
            fg_color: typeface.text_color,
            bg_color: background(x.color),
            left_margin: margin(alignment.left_margin),
            right_margin: margin(alignment.right_margin),
            top_margin: margin(alignment.top_margin),
            bottom_margin: margin(alignment.bottom_margin),
        }
    }
}

pub fn areas_of(title: look::Area, x: MostAreas) -> Areas
    ensures { result ≡ spec.areas title x }
{
    Areas {
        title: title.into(),
        caption: x.caption.into(),
        footer: x.footer.into(),
        corner: x.corner.into(),
        column_labels: x.column_labels.into(),
        row_labels: x.row_labels.into(),
        data: x.data.into(),
        layers: x.layers.into(),
    }
}
