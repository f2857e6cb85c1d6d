// Formats.
ghost use Rattle.grammar.specs.Layout.{◌▸◌, little, optional, region};
ghost use Rattle.grammar.specs.Conventions as notation;
ghost use Rattle.layout.specs.Reads.{Reads};
ghost use Rattle.grammar.specs.Sections as grammar;
ghost use Rattle.grammar.specs.Value as values;

use crate::arrays::style_maps;
use layout::number::{any, boolean, fixed};
use layout::{LITTLE, Step};
use regions::production::{Production, counted, times};
use regions::region::{bytes, close, close_open, close_optional, many_strings, part, string};
use regions::rows::{fields, many};
use value::style_pair;

fn y0(s: &[u8], st: Step) -> Step
    ensures { Reads grammar.Y0 s.now st result }
{
    let st = any(s, st, 4);
    let st = any(s, st, 1);
    any(s, st, 1)
}

fn custom_currency(s: &[u8], st: Step) -> Step
    ensures { Reads grammar.CustomCurrency s.now st result }
{
    many_strings(s, st, LITTLE, 4)
}

fn x1_start(s: &[u8], st: Step) -> Step
    ensures { Reads grammar.X1Start s.now st result }
{
    let st = boolean(s, st);
    let st = any(s, st, 1);
    let st = boolean(s, st);
    let st = any(s, st, 1);
    let st = any(s, st, 1);
    let st = any(s, st, 1);
    let st = any(s, st, 4);
    any(s, st, 4)
}

// A byte 00.
#[derive(Clone, Copy)]
struct Zero;

impl Production for Zero {
    ghost layout = { λ _. notation.fixed 0x00 };

    fn read(&self, s: &[u8], st: Step) -> Step {
        fixed(s, st, LITTLE, 1, 0x00)
    }
}

fn x1(s: &[u8], st: Step) -> Step
    ensures { Reads grammar.X1 s.now st result }
{
    let st = x1_start(s, st);
    let st = times(s, st, &Zero, 17);
    let st = boolean(s, st);
    boolean(s, st)
}

#[derive(Clone, Copy)]
struct StylePair;

impl Production for StylePair {
    ghost layout = { λ _. values.StylePair };

    fn read(&self, s: &[u8], st: Step) -> Step {
        style_pair(s, st)
    }
}

fn two_numbers(s: &[u8], st: Step) -> Step
    ensures { Reads (notation.i 0 ▸ notation.i 0) s.now st result }
{
    fixed(s, fixed(s, st, LITTLE, 4, 0), LITTLE, 4, 0)
}

fn ending(s: &[u8], st: Step) -> Step
    ensures { Reads (region little optional (notation.i 0 ▸ notation.i 0)) s.now st result }
{
    let p = part(s, st, LITTLE, 4);
    close_optional(p, two_numbers(bytes(s, p), Ok(0)))
}

fn x2(s: &[u8], st: Step) -> Step
    ensures { Reads grammar.X2 s.now st result }
{
    let st = many(s, st, LITTLE, 4);
    let st = style_maps(s, st);
    let st = counted(s, st, LITTLE, &StylePair);
    ending(s, st)
}

fn x2_region(s: &[u8], st: Step) -> Step
    ensures { Reads (notation.count grammar.X2) s.now st result }
{
    let p = part(s, st, LITTLE, 4);
    close(p, x2(bytes(s, p), Ok(0)))
}

fn x1_x2_content(s: &[u8], st: Step) -> Step
    ensures { Reads (grammar.X1 ▸ notation.count grammar.X2) s.now st result }
{
    x2_region(s, x1(s, st))
}

fn x1_x2(s: &[u8], st: Step) -> Step
    ensures { Reads grammar.X1X2 s.now st result }
{
    let p = part(s, st, LITTLE, 4);
    close(p, x1_x2_content(bytes(s, p), Ok(0)))
}

fn x3(s: &[u8], st: Step) -> Step
    ensures { Reads grammar.X3 s.now st result }
{
    let p = part(s, st, LITTLE, 4);
    close_open(p, Ok(0))
}

fn outer_content(s: &[u8], st: Step) -> Step
    ensures { Reads (grammar.X1X2 ▸ grammar.X3) s.now st result }
{
    x3(s, x1_x2(s, st))
}

fn outer(s: &[u8], st: Step) -> Step
    ensures { Reads (notation.count (grammar.X1X2 ▸ grammar.X3)) s.now st result }
{
    let p = part(s, st, LITTLE, 4);
    close(p, outer_content(bytes(s, p), Ok(0)))
}

fn y1(s: &[u8], st: Step) -> Step
    ensures { Reads grammar.Y1 s.now st result }
{
    let st = string(s, st, LITTLE, 4);
    let st = string(s, st, LITTLE, 4);
    let st = string(s, st, LITTLE, 4);
    let st = string(s, st, LITTLE, 4);
    let st = string(s, st, LITTLE, 4);
    let st = boolean(s, st);
    let st = boolean(s, st);
    let st = boolean(s, st);
    let st = boolean(s, st);
    y0(s, st)
}

fn y2(s: &[u8], st: Step) -> Step
    ensures { Reads grammar.Y2 s.now st result }
{
    let st = custom_currency(s, st);
    let st = any(s, st, 1);
    boolean(s, st)
}

fn x0(s: &[u8], st: Step) -> Step
    ensures { Reads grammar.X0 s.now st result }
{
    let st = fields(s, st, LITTLE, 14, 1);
    y2(s, y1(s, st))
}

fn x0_region(s: &[u8], st: Step) -> Step
    ensures { Reads (region little optional grammar.X0) s.now st result }
{
    let p = part(s, st, LITTLE, 4);
    close_optional(p, x0(bytes(s, p), Ok(0)))
}

fn end(s: &[u8], st: Step, version: u64) -> Step
    ensures { Reads (grammar.FormatsEnd version) s.now st result }
{
    if version == 1 {
        return x0_region(s, st);
    }
    outer(s, st)
}

pub fn formats(s: &[u8], st: Step, version: u64) -> Step
    ensures { Reads (grammar.Formats version) s.now st result }
{
    let st = many(s, st, LITTLE, 4);
    let st = string(s, st, LITTLE, 4);
    let st = any(s, st, 4);
    let st = boolean(s, st);
    let st = boolean(s, st);
    let st = boolean(s, st);
    let st = y0(s, st);
    let st = custom_currency(s, st);
    end(s, st, version)
}
