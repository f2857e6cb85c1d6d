// Binary table looks (source document 002): the look by value, and its reader.
#![tactic(auto)]

pub mod areas; // their colors and styles
pub mod borders; // separators
pub mod read; // the reader
pub mod section; // the first bytes of a section

use refusals::Refusal;
use store::Name;

// A border: "either not drawn or drawn with color, style and width" (document 01).
#[derive(Clone, Copy)]
pub enum Separator {
    NotDrawn,
    Drawn { color: u32, style: u16, width: u16 },
}

#[derive(Clone, Copy)]
pub struct Settings {
    pub flags: u16,
    pub nested_row_labels: bool,
    pub footnote_marker_subscripts: bool,
}

// The borders of rows (sep1) or of columns (sep2).
#[derive(Clone, Copy)]
pub struct Lines {
    pub horizontal_dimension: Separator,
    pub vertical_dimension: Separator,
    pub horizontal_category: Separator,
    pub vertical_category: Separator,
}

#[derive(Clone, Copy)]
pub struct AreaColor {
    pub color10: u32,
    pub color0: u32,
    pub shading: u8,
}

// An area's style, in three parts.
#[derive(Clone, Copy)]
pub struct Alignment {
    pub valign: u16,
    pub halign: u16,
    pub decimal_offset: u16,
    pub left_margin: u16,
    pub right_margin: u16,
    pub top_margin: u16,
    pub bottom_margin: u16,
}

#[derive(Clone, Copy)]
pub struct Font {
    pub font_size: i32,
    pub stretch: u16,
    pub rotation_angle: u32,
    pub weight: u16,
}

#[derive(Clone, Copy)]
pub struct Typeface {
    pub italic: bool,
    pub underline: bool,
    pub strikethrough: bool,
    pub rtf_charset_number: u32,
    pub x: u8,
    pub font_name: Name,
    pub text_color: u32,
}

#[derive(Clone, Copy)]
pub struct AreaStyle {
    pub alignment: Alignment,
    pub font: Font,
    pub typeface: Typeface,
}

#[derive(Clone, Copy)]
pub struct Area {
    pub color: AreaColor,
    pub style: AreaStyle,
}

// Every area but the title.
#[derive(Clone, Copy)]
pub struct MostAreas {
    pub layers: Area,
    pub corner: Area,
    pub row_labels: Area,
    pub column_labels: Area,
    pub data: Area,
    pub caption: Area,
    pub footer: Area,
}

#[derive(Clone, Copy)]
pub struct Frame {
    pub left: Separator,
    pub right: Separator,
    pub top: Separator,
    pub bottom: Separator,
}

// The borders of version 02 (sep3).
#[derive(Clone, Copy)]
pub struct Frames {
    pub title: Separator,
    pub inner: Frame,
    pub outer: Frame,
    pub data_left: Separator,
    pub data_top: Separator,
}

// The string at the top or bottom of a table that is broken across pages: the letters "(Cont.)", which stand in no file, or those of the
// file.
#[derive(Clone, Copy)]
pub enum Continuation {
    Default,
    Stored(Name),
}

#[derive(Clone, Copy)]
pub struct V2Styles {
    pub frames: Frames,
    pub continuation: Continuation,
    pub min_col_width: u32,
    pub max_col_width: u32,
    pub min_row_height: u32,
    pub max_row_height: u32,
}

// A look of version 02: whichever version a file has, what is read is one.
#[derive(Clone, Copy)]
pub struct Look {
    pub version: u8,
    pub settings: Settings,
    pub rows: Lines,
    pub columns: Lines,
    pub title: Area,
    pub most_areas: MostAreas,
    pub v2: V2Styles,
}

// What reading a look answers: the look, or a refusal.
pub type Answer = Result<Look, Refusal>;
