// The areas: each its font, its colors and its margins.
ghost use Rattle.grammar.specs.Sections as grammar;
ghost use Rattle.store.specs.Puts.{Puts, PutsPlain};
ghost use Rattle.sections_put.specs.Fields as spec;

use crate::word::{color, empty, typeface};
use layout::{LITTLE, Step};
use store::write::{byte, flag, int32, number};
use styles::{Area, Areas};

fn font(buf: &mut [u8], st: Step, names: &[u8], index: u8, x: Area) -> Step
    ensures { Puts (grammar.AreaFont index) names.now (spec.font index x) buf.old st buf.new result }
{
    let st = byte(buf, st, index);
    let st = byte(buf, st, 0x31);
    let st = typeface(buf, st, names, x.typeface);
    let st = int32(buf, st, x.size);
    let st = int32(buf, st, x.style);
    let st = flag(buf, st, x.underline);
    let st = int32(buf, st, x.halign);
    int32(buf, st, x.valign)
}

fn colors(buf: &mut [u8], st: Step, x: Area) -> Step
    ensures { PutsPlain grammar.AreaColors (spec.colors x) buf.old st buf.new result }
{
    let alternate = false;
    let st = color(buf, st, x.fg_color);
    let st = color(buf, st, x.bg_color);
    let st = flag(buf, st, alternate);
    let st = empty(buf, st);
    empty(buf, st)
}

fn margins(buf: &mut [u8], st: Step, x: Area) -> Step
    ensures { PutsPlain grammar.AreaMargins (spec.margins x) buf.old st buf.new result }
{
    let st = int32(buf, st, x.left_margin);
    let st = int32(buf, st, x.right_margin);
    let st = int32(buf, st, x.top_margin);
    int32(buf, st, x.bottom_margin)
}

fn area(buf: &mut [u8], st: Step, names: &[u8], index: u8, x: Area) -> Step
    ensures { Puts (grammar.Area 3 index) names.now (spec.area index x) buf.old st buf.new result }
{
    let st = font(buf, st, names, index, x);
    let st = colors(buf, st, x);
    margins(buf, st, x)
}

fn eight_areas(buf: &mut [u8], st: Step, names: &[u8], x: Areas) -> Step
    ensures { Puts (grammar.EightAreas 3) names.now (spec.eight_areas x) buf.old st buf.new result }
{
    let st = area(buf, st, names, 1, x.title);
    let st = area(buf, st, names, 2, x.caption);
    let st = area(buf, st, names, 3, x.footer);
    let st = area(buf, st, names, 4, x.corner);
    let st = area(buf, st, names, 5, x.column_labels);
    let st = area(buf, st, names, 6, x.row_labels);
    let st = area(buf, st, names, 7, x.data);
    area(buf, st, names, 8, x.layers)
}

// No 00 before them: a run of no bytes.
pub fn areas(buf: &mut [u8], st: Step, names: &[u8], x: Areas) -> Step
    ensures { Puts (grammar.Areas 3) names.now (spec.areas x) buf.old st buf.new result }
{
    let st = number(buf, st, LITTLE, 0, 0, Ok(()));
    eight_areas(buf, st, names, x)
}
