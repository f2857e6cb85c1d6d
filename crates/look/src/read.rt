// The reader of looks.
ghost use Rattle.std.specs.Prelude.{◌≡◌};
ghost use Rattle.refusals.specs.Numbers.{by_number};
ghost use Rattle.grammar.specs.Layout.{Bytes};
ghost use Rattle.grammar.specs.Laws.Layout.Read.{read};
ghost use Rattle.store.specs.Fields.{placed};
ghost use Rattle.fields.specs.Gives.{ShowsValue, GivesValue};
ghost use Rattle.look.specs.Look as grammar;
ghost use Rattle.look.specs.Values as values;
ghost use Rattle.look.specs.Answers as spec;
ghost use Rattle.look.specs.Answers.{defaults, v2_data, look_of, outcome, expected};

use crate::areas::{cell_style, text_style};
use crate::borders::{frames, separator_style};
use crate::section::section;
use crate::{Answer, Area, Continuation, Frame, Frames, Look, Separator, Settings, V2Styles};
use fields::Read;
use fields::read::{fixed_byte, flag, int16, int32, int32_of, name};
use layout::number::{field, peek};
use layout::{LITTLE, Step};
use refusals::{Reason, Refusal};
use store::verdict::known_two;

pub fn settings(s: &[u8], st: Step) -> Read<Settings>
    ensures { GivesValue grammar.settings values.settings s.now st result }
{
    let (flags, at) = int16(s, st)?;
    let st = fixed_byte(s, Ok(at), 0);
    let st = fixed_byte(s, st, 0);
    let (nested_row_labels, at) = flag(s, st)?;
    let st = fixed_byte(s, Ok(at), 0);
    let (footnote_marker_subscripts, at) = flag(s, st)?;
    let st = fixed_byte(s, Ok(at), 0);
    let st = int32_of(s, st, 54);
    let end = int32_of(s, st, 18)?;
    let value = Settings {
        flags,
        nested_row_labels,
        footnote_marker_subscripts,
    };
    Ok((value, end))
}

fn v2_styles(s: &[u8], st: Step) -> Read<V2Styles>
    ensures { GivesValue grammar.V2Styles values.v2_styles s.now st result }
{
    let (frames, at) = frames(s, st)?;
    let (stored, at) = name(s, Ok(at))?;
    let (min_col_width, at) = int32(s, Ok(at))?;
    let (max_col_width, at) = int32(s, Ok(at))?;
    let (min_row_height, at) = int32(s, Ok(at))?;
    let (max_row_height, end) = int32(s, Ok(at))?;
    let value = V2Styles {
        frames,
        continuation: Continuation::Stored(stored),
        min_col_width,
        max_col_width,
        min_row_height,
        max_row_height,
    };
    Ok((value, end))
}

// A frame with the same border on every side.
fn frame_of(x: Separator) -> Frame
    ensures { result ≡ spec.frame_said x }
{
    Frame {
        left: x,
        right: x,
        top: x,
        bottom: x,
    }
}

// What a file of version 00 doesn't say.
fn default_v2_styles() -> V2Styles
    ensures { result ≡ defaults }
{
    let solid = Separator::Drawn {
        color: 0,
        style: 0,
        width: 1,
    };
    V2Styles {
        frames: Frames {
            title: Separator::NotDrawn,
            inner: frame_of(solid),
            outer: frame_of(Separator::NotDrawn),
            data_left: Separator::NotDrawn,
            data_top: Separator::NotDrawn,
        },
        continuation: Continuation::Default,
        min_col_width: 36,
        max_col_width: 72,
        min_row_height: 36,
        max_row_height: 120,
    }
}

// V2Styles, which version 02 has; otherwise the defaults.
fn v2_styles_if(s: &[u8], st: Step, new: bool) -> Read<V2Styles>
    ensures { ShowsValue (grammar.V2StylesIf new) (λ t at. v2_data new (placed (grammar.V2StylesIf new) t at)) values.v2_styles s.now st result }
{
    if new {
        v2_styles(s, st)
    } else {
        Ok((default_v2_styles(), st?))
    }
}

fn table_look(s: &[u8], st: Step) -> Read<Look>
    ensures { ShowsValue grammar.TableLook (λ t at. look_of (placed grammar.TableLook t at)) values.fields s.now st result }
{
    let st = section(s, st, b"PTTableLook");
    let v = peek(s, st, LITTLE, 1);
    let st = field(s, st, 1, known_two(v, 0, 2));
    let (settings, at) = settings(s, st)?;
    let ((rows, columns), at) = separator_style(s, Ok(at))?;
    let (color, at) = cell_style(s, Ok(at))?;
    let ((style, most_areas), at) = text_style(s, Ok(at))?;
    let (v2, end) = v2_styles_if(s, Ok(at), v == 2)?;
    let value = Look {
        version: 2,
        settings,
        rows,
        columns,
        title: Area { color, style },
        most_areas,
        v2,
    };
    Ok((value, end))
}

// Reads a look, of version 00 or 02, as one of version 02. The places of its names count from the start of the file.
pub fn read_look(file: &[u8]) -> Answer
    ensures { (outcome (by_number result) ≡ expected (read grammar.TableLook file.now 0)) × Bytes file.now }
{
    let (look, end) = table_look(file, Ok(0))?;
    if end < file.len() {
        return Err(Refusal {
            reason: Reason::BytesLeft,
            place: end,
        });
    }
    Ok(look)
}
