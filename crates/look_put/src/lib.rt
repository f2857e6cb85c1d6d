// The productions of 002, each written with its fields into a buffer.
#![tactic(auto)]

ghost use Rattle.std.specs.Prelude.{[], ◌∷◌, ◌^◌, ◌<◌, length};
ghost use Rattle.grammar.specs.Layout.{times};
ghost use Rattle.store.specs.Puts.{Puts, PutsPlain};
ghost use Rattle.look.specs.Look as grammar;
ghost use Rattle.look.specs.Values as values;

use layout::{LITTLE, Step};
use look::{
    Alignment, Area, AreaColor, AreaStyle, Continuation, Font, Frame, Frames, Lines, Look,
    MostAreas, Separator, Settings, Typeface, V2Styles,
};
use store::verdict::known_one;
use store::write::{
    byte, color, flag, int16, int32, name, number, plain_letters, signed, small, text, zeros,
};

// A class name, which has fewer than 2^16 letters: its length, and its letters.
fn quoted(buf: &mut [u8], st: Step, text: &[u8]) -> Step
    requires { length text.now < 256 ^ 2 }
    ensures { PutsPlain (grammar.quoted text.now) (values.quoted text.now) buf.old st buf.new result }
{
    let n = text.len() as u16;
    let st = int16(buf, st, n);
    plain_letters(buf, st, text)
}

// ff ff 00 00 and a class name.
fn section(buf: &mut [u8], st: Step, text: &[u8]) -> Step
    requires { length text.now < 256 ^ 2 }
    ensures { PutsPlain (grammar.section text.now) (values.section text.now) buf.old st buf.new result }
{
    let st = byte(buf, st, 0xff);
    let st = byte(buf, st, 0xff);
    let st = byte(buf, st, 0);
    let st = byte(buf, st, 0);
    quoted(buf, st, text)
}

fn settings(buf: &mut [u8], st: Step, x: Settings) -> Step
    ensures { PutsPlain grammar.settings (values.settings x) buf.old st buf.new result }
{
    let st = int16(buf, st, x.flags);
    let st = byte(buf, st, 0);
    let st = byte(buf, st, 0);
    let st = flag(buf, st, x.nested_row_labels);
    let st = byte(buf, st, 0);
    let st = flag(buf, st, x.footnote_marker_subscripts);
    let st = byte(buf, st, 0);
    let st = int32(buf, st, 54);
    int32(buf, st, 18)
}

fn separator(buf: &mut [u8], st: Step, x: Separator) -> Step
    ensures { PutsPlain grammar.Separator (values.separator x) buf.old st buf.new result }
{
    match x {
        Separator::NotDrawn => {
            let st = number(buf, st, LITTLE, 1, 0, Ok(()));
            byte(buf, st, 0)
        }
        Separator::Drawn {
            color: c,
            style,
            width,
        } => {
            let st = number(buf, st, LITTLE, 1, 1, Ok(()));
            let st = byte(buf, st, 0);
            let st = color(buf, st, c);
            let st = int16(buf, st, style);
            int16(buf, st, width)
        }
    }
}

fn lines(buf: &mut [u8], st: Step, x: Lines) -> Step
    ensures { PutsPlain (times 4 grammar.Separator) (values.lines x) buf.old st buf.new result }
{
    let st = separator(buf, st, x.horizontal_dimension);
    let st = separator(buf, st, x.vertical_dimension);
    let st = separator(buf, st, x.horizontal_category);
    separator(buf, st, x.vertical_category)
}

fn separator_style(buf: &mut [u8], st: Step, rows: Lines, columns: Lines) -> Step
    ensures { PutsPlain grammar.PVSeparatorStyle (values.separator_style rows columns) buf.old st buf.new result }
{
    let st = section(buf, st, b"PVSeparatorStyle");
    let st = byte(buf, st, 0);
    let st = lines(buf, st, rows);
    let st = byte(buf, st, 3);
    let st = byte(buf, st, 0x80);
    let st = byte(buf, st, 0);
    lines(buf, st, columns)
}

fn area_color(buf: &mut [u8], st: Step, x: AreaColor) -> Step
    ensures { PutsPlain grammar.AreaColor (values.area_color x) buf.old st buf.new result }
{
    let st = byte(buf, st, 0);
    let st = byte(buf, st, 1);
    let st = byte(buf, st, 0);
    let st = color(buf, st, x.color10);
    let st = color(buf, st, x.color0);
    let st = small(buf, st, x.shading, 10);
    byte(buf, st, 0)
}

fn cell_style(buf: &mut [u8], st: Step, title: AreaColor) -> Step
    ensures { PutsPlain grammar.PVCellStyle (values.cell_style title) buf.old st buf.new result }
{
    let st = section(buf, st, b"PVCellStyle");
    area_color(buf, st, title)
}

fn alignment(buf: &mut [u8], st: Step, x: Alignment) -> Step
    ensures { PutsPlain grammar.alignment (values.alignment x) buf.old st buf.new result }
{
    let st = int16(buf, st, x.valign);
    let st = int16(buf, st, x.halign);
    let st = int16(buf, st, x.decimal_offset);
    let st = int16(buf, st, x.left_margin);
    let st = int16(buf, st, x.right_margin);
    let st = int16(buf, st, x.top_margin);
    let st = int16(buf, st, x.bottom_margin);
    let st = byte(buf, st, 0);
    let st = byte(buf, st, 0);
    let st = byte(buf, st, 1);
    byte(buf, st, 0)
}

fn font(buf: &mut [u8], st: Step, x: Font) -> Step
    ensures { PutsPlain grammar.font (values.font x) buf.old st buf.new result }
{
    let st = signed(buf, st, x.font_size);
    let st = int16(buf, st, x.stretch);
    let st = zeros(buf, st, 2);
    let st = int32(buf, st, x.rotation_angle);
    let st = zeros(buf, st, 4);
    let st = int16(buf, st, x.weight);
    zeros(buf, st, 2)
}

fn typeface(buf: &mut [u8], st: Step, names: &[u8], x: Typeface) -> Step
    ensures { Puts grammar.typeface names.now (values.typeface x) buf.old st buf.new result }
{
    let st = flag(buf, st, x.italic);
    let st = flag(buf, st, x.underline);
    let st = flag(buf, st, x.strikethrough);
    let st = int32(buf, st, x.rtf_charset_number);
    let st = byte(buf, st, x.x);
    let st = name(buf, st, LITTLE, 1, names, x.font_name);
    let st = color(buf, st, x.text_color);
    zeros(buf, st, 2)
}

fn area_style(buf: &mut [u8], st: Step, names: &[u8], x: AreaStyle) -> Step
    ensures { Puts grammar.AreaStyle names.now (values.area_style x) buf.old st buf.new result }
{
    let st = alignment(buf, st, x.alignment);
    let st = font(buf, st, x.font);
    typeface(buf, st, names, x.typeface)
}

fn area(buf: &mut [u8], st: Step, names: &[u8], x: Area) -> Step
    ensures { Puts grammar.MostAreas names.now (values.area x) buf.old st buf.new result }
{
    let st = byte(buf, st, 6);
    let st = byte(buf, st, 0x80);
    let st = area_color(buf, st, x.color);
    let st = byte(buf, st, 8);
    let st = byte(buf, st, 0x80);
    let st = byte(buf, st, 0);
    area_style(buf, st, names, x.style)
}

fn most_areas(buf: &mut [u8], st: Step, names: &[u8], x: MostAreas) -> Step
    ensures { Puts (times 7 grammar.MostAreas) names.now (values.most_areas x) buf.old st buf.new result }
{
    let st = area(buf, st, names, x.layers);
    let st = area(buf, st, names, x.corner);
    let st = area(buf, st, names, x.row_labels);
    let st = area(buf, st, names, x.column_labels);
    let st = area(buf, st, names, x.data);
    let st = area(buf, st, names, x.caption);
    area(buf, st, names, x.footer)
}

fn text_style(buf: &mut [u8], st: Step, names: &[u8], title: AreaStyle, most: MostAreas) -> Step
    ensures { Puts grammar.PVTextStyle names.now (values.text_style title most) buf.old st buf.new result }
{
    let st = section(buf, st, b"PVTextStyle");
    let st = byte(buf, st, 0);
    let st = area_style(buf, st, names, title);
    most_areas(buf, st, names, most)
}

fn frame(buf: &mut [u8], st: Step, x: Frame) -> Step
    ensures { PutsPlain (times 4 grammar.Separator)
        (values.separator x.left ∷ values.separator x.right ∷ values.separator x.top ∷ values.separator x.bottom ∷ []) buf.old st buf.new result }
{
    let st = separator(buf, st, x.left);
    let st = separator(buf, st, x.right);
    let st = separator(buf, st, x.top);
    separator(buf, st, x.bottom)
}

fn frames(buf: &mut [u8], st: Step, x: Frames) -> Step
    ensures { PutsPlain (times 11 grammar.Separator) (values.frames x) buf.old st buf.new result }
{
    let st = separator(buf, st, x.title);
    let st = frame(buf, st, x.inner);
    let st = frame(buf, st, x.outer);
    let st = separator(buf, st, x.data_left);
    separator(buf, st, x.data_top)
}

// The default's letters, or those that a stored one has.
fn continuation_of(buf: &mut [u8], st: Step, names: &[u8], x: Continuation) -> Step
    ensures { Puts grammar.name names.now (values.continuation x) buf.old st buf.new result }
{
    match x {
        Continuation::Default => text(buf, st, LITTLE, 1, b"(Cont.)"),
        Continuation::Stored(n) => name(buf, st, LITTLE, 1, names, n),
    }
}

fn v2_styles(buf: &mut [u8], st: Step, names: &[u8], x: V2Styles) -> Step
    ensures { Puts grammar.V2Styles names.now (values.v2_styles x) buf.old st buf.new result }
{
    let st = frames(buf, st, x.frames);
    let st = continuation_of(buf, st, names, x.continuation);
    let st = int32(buf, st, x.min_col_width);
    let st = int32(buf, st, x.max_col_width);
    let st = int32(buf, st, x.min_row_height);
    int32(buf, st, x.max_row_height)
}

pub fn table_look(buf: &mut [u8], st: Step, names: &[u8], x: Look) -> Step
    ensures { Puts grammar.TableLook02 names.now (values.fields x) buf.old st buf.new result }
{
    let v = x.version as u64;
    let st = section(buf, st, b"PTTableLook");
    let st = number(buf, st, LITTLE, 1, v, known_one(v, 2));
    let st = settings(buf, st, x.settings);
    let st = separator_style(buf, st, x.rows, x.columns);
    let st = cell_style(buf, st, x.title.color);
    let st = text_style(buf, st, names, x.title.style, x.most_areas);
    v2_styles(buf, st, names, x.v2)
}
