// Readers of the borders: separators one by one, in fours and in elevens.
ghost use Rattle.std.specs.Prelude.{map};
ghost use Rattle.grammar.specs.Layout.{times};
ghost use Rattle.fields.specs.Gives.{GivesValue};
ghost use Rattle.look.specs.Look as grammar;
ghost use Rattle.look.specs.Values as values;

use crate::section::section;
use crate::{Frame, Frames, Lines, Separator};
use fields::Read;
use fields::read::{color, fixed_byte, int16};
use layout::number::{one_of_two, peek};
use layout::{LITTLE, Step};

pub fn separator(s: &[u8], st: Step) -> Read<Separator>
    ensures { GivesValue grammar.Separator values.separator s.now st result }
{
    let drawn = peek(s, st, LITTLE, 1) == 1;
    let st = one_of_two(s, st, 0, 1);
    let st = fixed_byte(s, st, 0);
    if !drawn {
        return Ok((Separator::NotDrawn, st?));
    }
    let (color, at) = color(s, st)?;
    let (style, at) = int16(s, Ok(at))?;
    let (width, end) = int16(s, Ok(at))?;
    let value = Separator::Drawn {
        color,
        style,
        width,
    };
    Ok((value, end))
}

// So many separators.
fn separators<const N: usize>(s: &[u8], st: Step) -> Read<[Separator; N]>
    ensures { GivesValue (times N grammar.Separator) (map values.separator) s.now st result }
{
    let mut found = [Separator::NotDrawn; N];
    let mut at = st?;
    for x in &mut found {
        let (value, next) = separator(s, Ok(at))?;
        *x = value;
        at = next;
    }
    Ok((found, at))
}

pub fn lines(s: &[u8], st: Step) -> Read<Lines>
    ensures { GivesValue (times 4 grammar.Separator) values.lines s.now st result }
{
    let (found, end) = separators::<4>(s, st)?;
    let [
        horizontal_dimension,
        vertical_dimension,
        horizontal_category,
        vertical_category,
    ] = found;
    let value = Lines {
        horizontal_dimension,
        vertical_dimension,
        horizontal_category,
        vertical_category,
    };
    Ok((value, end))
}

// The lines of rows, and those of columns.
pub fn separator_style(s: &[u8], st: Step) -> Read<(Lines, Lines)>
    ensures { GivesValue grammar.PVSeparatorStyle (λ x. values.separator_style x.0 x.1) s.now st result }
{
    let st = section(s, st, b"PVSeparatorStyle");
    let st = fixed_byte(s, st, 0);
    let (rows, at) = lines(s, st)?;
    let st = fixed_byte(s, Ok(at), 3);
    let st = fixed_byte(s, st, 0x80);
    let st = fixed_byte(s, st, 0);
    let (columns, end) = lines(s, st)?;
    Ok(((rows, columns), end))
}

pub fn frames(s: &[u8], st: Step) -> Read<Frames>
    ensures { GivesValue (times 11 grammar.Separator) values.frames s.now st result }
{
    let (found, end) = separators::<11>(s, st)?;
    let value = Frames {
        title: found[0],
        inner: Frame {
            left: found[1],
            right: found[2],
            top: found[3],
            bottom: found[4],
        },
        outer: Frame {
            left: found[5],
            right: found[6],
            top: found[7],
            bottom: found[8],
        },
        data_left: found[9],
        data_top: found[10],
    };
    Ok((value, end))
}
