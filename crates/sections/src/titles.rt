// Titles.
ghost use Rattle.grammar.specs.Conventions as notation;
ghost use Rattle.layout.specs.Reads.{Reads};
ghost use Rattle.grammar.specs.Sections as grammar;
ghost use Rattle.grammar.specs.Value as values;

use crate::optional::optional_value;
use layout::number::fixed;
use layout::run::skip;
use layout::{LITTLE, Step};
use value::value;

// After an optional 01. These three stay functions: a generic one over a production (regions::production) would need a struct and an impl for each.
fn marked_value(s: &[u8], st: Step, version: u64) -> Step
    ensures { Reads (notation.mark 0x01 (values.Value version)) s.now st result }
{
    value(s, skip(s, st, 0x01, 1), version)
}

fn marked_31(s: &[u8], st: Step) -> Step
    ensures { Reads (notation.mark 0x01 (notation.fixed 0x31)) s.now st result }
{
    fixed(s, skip(s, st, 0x01, 1), LITTLE, 1, 0x31)
}

fn marked_optional(s: &[u8], st: Step, version: u64) -> Step
    ensures { Reads (notation.mark 0x01 (notation.if31 (values.Value version))) s.now st result }
{
    optional_value(s, skip(s, st, 0x01, 1), version)
}

pub fn titles(s: &[u8], st: Step, version: u64) -> Step
    ensures { Reads (grammar.Titles version) s.now st result }
{
    let st = value(s, st, version);
    let st = marked_value(s, st, version);
    let st = marked_31(s, st);
    let st = value(s, st, version);
    let st = marked_optional(s, st, version);
    optional_value(s, st, version)
}
