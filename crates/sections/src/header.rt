// Header.
ghost use Rattle.grammar.specs.Layout.{little, a_version};
ghost use Rattle.grammar.specs.Conventions as notation;
ghost use Rattle.layout.specs.Reads.{Reads};
ghost use Rattle.grammar.specs.Sections as grammar;

use layout::number::{any, boolean, fixed, version as one_of_versions};
use layout::{LITTLE, Step};

fn flags(s: &[u8], st: Step) -> Step
    ensures { Reads grammar.HeaderFlags s.now st result }
{
    let st = boolean(s, st);
    let st = boolean(s, st);
    let st = boolean(s, st);
    let st = boolean(s, st);
    boolean(s, st)
}

fn numbers(s: &[u8], st: Step) -> Step
    ensures { Reads grammar.HeaderNumbers s.now st result }
{
    let st = any(s, st, 4);
    let st = any(s, st, 4);
    let st = any(s, st, 4);
    let st = any(s, st, 4);
    let st = any(s, st, 4);
    any(s, st, 8)
}

// What stands before the version.
pub fn start(s: &[u8], st: Step) -> Step
    ensures { Reads grammar.HeaderStart s.now st result }
{
    let st = fixed(s, st, LITTLE, 1, 0x01);
    fixed(s, st, LITTLE, 1, 0x00)
}

// The version.
pub fn version(s: &[u8], st: Step) -> Step
    ensures { Reads (notation.field little 4 (a_version grammar.versions)) s.now st result }
{
    one_of_versions(s, st, 1, 3)
}

// What follows the version.
pub fn rest(s: &[u8], st: Step) -> Step
    ensures { Reads grammar.HeaderRest s.now st result }
{
    let st = flags(s, st);
    numbers(s, st)
}
