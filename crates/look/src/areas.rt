// Readers of the areas: their colors and styles.
ghost use Rattle.grammar.specs.Layout.{times};
ghost use Rattle.fields.specs.Gives.{GivesValue};
ghost use Rattle.look.specs.Look as grammar;
ghost use Rattle.look.specs.Values as values;

use crate::section::section;
use crate::{Alignment, Area, AreaColor, AreaStyle, Font, MostAreas, Typeface};
use fields::Read;
use fields::read::{byte, color, fixed_byte, flag, int16, int32, name, signed, small, zeros};
use layout::Step;

pub fn area_color(s: &[u8], st: Step) -> Read<AreaColor>
    ensures { GivesValue grammar.AreaColor values.area_color s.now st result }
{
    let st = fixed_byte(s, st, 0);
    let st = fixed_byte(s, st, 1);
    let st = fixed_byte(s, st, 0);
    let (color10, at) = color(s, st)?;
    let (color0, at) = color(s, Ok(at))?;
    let (shading, at) = small(s, Ok(at), 10)?;
    let end = fixed_byte(s, Ok(at), 0)?;
    let value = AreaColor {
        color10,
        color0,
        shading,
    };
    Ok((value, end))
}

pub fn cell_style(s: &[u8], st: Step) -> Read<AreaColor>
    ensures { GivesValue grammar.PVCellStyle values.cell_style s.now st result }
{
    area_color(s, section(s, st, b"PVCellStyle"))
}

pub fn alignment(s: &[u8], st: Step) -> Read<Alignment>
    ensures { GivesValue grammar.alignment values.alignment s.now st result }
{
    let (valign, at) = int16(s, st)?;
    let (halign, at) = int16(s, Ok(at))?;
    let (decimal_offset, at) = int16(s, Ok(at))?;
    let (left_margin, at) = int16(s, Ok(at))?;
    let (right_margin, at) = int16(s, Ok(at))?;
    let (top_margin, at) = int16(s, Ok(at))?;
    let (bottom_margin, at) = int16(s, Ok(at))?;
    let st = fixed_byte(s, Ok(at), 0);
    let st = fixed_byte(s, st, 0);
    let st = fixed_byte(s, st, 1);
    let end = fixed_byte(s, st, 0)?;
    let value = Alignment {
        valign,
        halign,
        decimal_offset,
        left_margin,
        right_margin,
        top_margin,
        bottom_margin,
    };
    Ok((value, end))
}

pub fn font(s: &[u8], st: Step) -> Read<Font>
    ensures { GivesValue grammar.font values.font s.now st result }
{
    let (font_size, at) = signed(s, st)?;
    let (stretch, at) = int16(s, Ok(at))?;
    let st = zeros(s, Ok(at), 2);
    let (rotation_angle, at) = int32(s, st)?;
    let st = zeros(s, Ok(at), 4);
    let (weight, at) = int16(s, st)?;
    let end = zeros(s, Ok(at), 2)?;
    let value = Font {
        font_size,
        stretch,
        rotation_angle,
        weight,
    };
    Ok((value, end))
}

pub fn typeface(s: &[u8], st: Step) -> Read<Typeface>
    ensures { GivesValue grammar.typeface values.typeface s.now st result }
{
    let (italic, at) = flag(s, st)?;
    let (underline, at) = flag(s, Ok(at))?;
    let (strikethrough, at) = flag(s, Ok(at))?;
    let (rtf_charset_number, at) = int32(s, Ok(at))?;
    let (x, at) = byte(s, Ok(at))?;
    let (font_name, at) = name(s, Ok(at))?;
    let (text_color, at) = color(s, Ok(at))?;
    let end = zeros(s, Ok(at), 2)?;
    let value = Typeface {
        italic,
        underline,
        strikethrough,
        rtf_charset_number,
        x,
        font_name,
        text_color,
    };
    Ok((value, end))
}

pub fn area_style(s: &[u8], st: Step) -> Read<AreaStyle>
    ensures { GivesValue grammar.AreaStyle values.area_style s.now st result }
{
    let (alignment, at) = alignment(s, st)?;
    let (font, at) = font(s, Ok(at))?;
    let (typeface, end) = typeface(s, Ok(at))?;
    let value = AreaStyle {
        alignment,
        font,
        typeface,
    };
    Ok((value, end))
}

pub fn area(s: &[u8], st: Step) -> Read<Area>
    ensures { GivesValue grammar.MostAreas values.area s.now st result }
{
    let st = fixed_byte(s, st, 6);
    let st = fixed_byte(s, st, 0x80);
    let (color, at) = area_color(s, st)?;
    let st = fixed_byte(s, Ok(at), 8);
    let st = fixed_byte(s, st, 0x80);
    let st = fixed_byte(s, st, 0);
    let (style, end) = area_style(s, st)?;
    Ok((Area { color, style }, end))
}

// One by one: an array would first have to be filled with areas that are no look's.
pub fn most_areas(s: &[u8], st: Step) -> Read<MostAreas>
    ensures { GivesValue (times 7 grammar.MostAreas) values.most_areas s.now st result }
{
    let (layers, at) = area(s, st)?;
    let (corner, at) = area(s, Ok(at))?;
    let (row_labels, at) = area(s, Ok(at))?;
    let (column_labels, at) = area(s, Ok(at))?;
    let (data, at) = area(s, Ok(at))?;
    let (caption, at) = area(s, Ok(at))?;
    let (footer, end) = area(s, Ok(at))?;
    let value = MostAreas {
        layers,
        corner,
        row_labels,
        column_labels,
        data,
        caption,
        footer,
    };
    Ok((value, end))
}

// The style of the title, and the other areas.
pub fn text_style(s: &[u8], st: Step) -> Read<(AreaStyle, MostAreas)>
    ensures { GivesValue grammar.PVTextStyle (λ x. values.text_style x.0 x.1) s.now st result }
{
    let st = section(s, st, b"PVTextStyle");
    let st = fixed_byte(s, st, 0);
    let (title, at) = area_style(s, st)?;
    let (most, end) = most_areas(s, Ok(at))?;
    Ok(((title, most), end))
}
