// The borders, by type.
ghost use Rattle.grammar.specs.Layout.{times};
ghost use Rattle.grammar.specs.Sections as grammar;
ghost use Rattle.store.specs.Puts.{PutsPlain};
ghost use Rattle.sections_put.specs.Fields as spec;

use crate::word::be32;
use layout::{BIG, LITTLE, Step};
use store::region::{end, start};
use store::write::{byte, flag, number};
use styles::{Border, Borders, Frame, Pair};

fn border(buf: &mut [u8], st: Step, kind: u32, x: Border) -> Step
    ensures { PutsPlain grammar.Border (spec.border kind x) buf.old st buf.new result }
{
    let st = be32(buf, st, kind);
    let st = be32(buf, st, x.stroke);
    be32(buf, st, x.color)
}

// Four borders, of this type and the next ones.
fn frame(buf: &mut [u8], st: Step, kind: u8, x: Frame) -> Step
    ensures { PutsPlain (times 4 grammar.Border) (spec.frame kind x) buf.old st buf.new result }
{
    let first = kind as u32;
    let st = border(buf, st, first, x.left);
    let st = border(buf, st, first + 1, x.top);
    let st = border(buf, st, first + 2, x.right);
    border(buf, st, first + 3, x.bottom)
}

// Two borders, of this type and the next. (One function of four or two would go by a list of borders and count their types beside it, which
// says no more.)
fn pair(buf: &mut [u8], st: Step, kind: u8, x: Pair) -> Step
    ensures { PutsPlain (times 2 grammar.Border) (spec.pair kind x) buf.old st buf.new result }
{
    let first = kind as u32;
    let st = border(buf, st, first, x.horizontal);
    border(buf, st, first + 1, x.vertical)
}

fn lines(buf: &mut [u8], st: Step, x: Borders) -> Step
    ensures { PutsPlain (times 19 grammar.Border) (spec.lines x) buf.old st buf.new result }
{
    let st = border(buf, st, 0, x.title);
    let st = frame(buf, st, 1, x.outer);
    let st = frame(buf, st, 5, x.inner);
    let st = border(buf, st, 9, x.data_left);
    let st = border(buf, st, 10, x.data_top);
    let st = pair(buf, st, 11, x.dimension_rows);
    let st = pair(buf, st, 13, x.dimension_columns);
    let st = pair(buf, st, 15, x.category_rows);
    pair(buf, st, 17, x.category_columns)
}

fn content(buf: &mut [u8], st: Step, x: Borders) -> Step
    ensures { PutsPlain grammar.BordersContent (spec.content x) buf.old st buf.new result }
{
    let grid_lines = false;
    let st = number(buf, st, BIG, 4, 1, Ok(()));
    let st = number(buf, st, BIG, 4, 19, Ok(()));
    let st = lines(buf, st, x);
    let st = flag(buf, st, grid_lines);
    let st = byte(buf, st, 0);
    let st = byte(buf, st, 0);
    byte(buf, st, 0)
}

pub fn borders(buf: &mut [u8], st: Step, x: Borders) -> Step
    ensures { PutsPlain grammar.Borders (spec.borders x) buf.old st buf.new result }
{
    let inside = start(buf, st);
    let last = content(buf, inside, x);
    end(buf, st, last, LITTLE)
}
