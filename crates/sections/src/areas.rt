// Areas.
ghost use Rattle.layout.specs.Reads.{Reads};
ghost use Rattle.grammar.specs.Sections as grammar;

use crate::optional::in_version_3;
use layout::number::{any, boolean, fixed};
use layout::run::skip;
use layout::{LITTLE, Step};
use regions::production::Production;
use regions::region::string;

fn font(s: &[u8], st: Step, index: u64) -> Step
    ensures { Reads (grammar.AreaFont index) s.now st result }
{
    let st = fixed(s, st, LITTLE, 1, index);
    let st = fixed(s, st, LITTLE, 1, 0x31);
    let st = string(s, st, LITTLE, 4);
    let st = any(s, st, 4);
    let st = any(s, st, 4);
    let st = boolean(s, st);
    let st = any(s, st, 4);
    any(s, st, 4)
}

fn colors(s: &[u8], st: Step) -> Step
    ensures { Reads grammar.AreaColors s.now st result }
{
    let st = string(s, st, LITTLE, 4);
    let st = string(s, st, LITTLE, 4);
    let st = boolean(s, st);
    let st = string(s, st, LITTLE, 4);
    string(s, st, LITTLE, 4)
}

#[derive(Clone, Copy)]
struct Margins;

impl Production for Margins {
    ghost layout = { λ _. grammar.AreaMargins };

    fn read(&self, s: &[u8], st: Step) -> Step {
        let st = any(s, st, 4);
        let st = any(s, st, 4);
        let st = any(s, st, 4);
        any(s, st, 4)
    }
}

fn area(s: &[u8], st: Step, index: u64, version: u64) -> Step
    ensures { Reads (grammar.Area version index) s.now st result }
{
    in_version_3(s, colors(s, font(s, st, index)), &Margins, version)
}

fn eight(s: &[u8], st: Step, version: u64) -> Step
    ensures { Reads (grammar.EightAreas version) s.now st result }
{
    let st = area(s, st, 1, version);
    let st = area(s, st, 2, version);
    let st = area(s, st, 3, version);
    let st = area(s, st, 4, version);
    let st = area(s, st, 5, version);
    let st = area(s, st, 6, version);
    let st = area(s, st, 7, version);
    area(s, st, 8, version)
}

pub fn areas(s: &[u8], st: Step, version: u64) -> Step
    ensures { Reads (grammar.Areas version) s.now st result }
{
    eight(s, skip(s, st, 0x00, 1), version)
}
