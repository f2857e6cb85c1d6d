// PrintSettings.
ghost use Rattle.layout.specs.Reads.{Reads};
ghost use Rattle.grammar.specs.Sections as grammar;

use layout::number::{any, boolean, fixed};
use layout::{BIG, LITTLE, Step};
use regions::region::{bytes, close, part, string};

fn content(s: &[u8], st: Step) -> Step
    ensures { Reads grammar.PrintSettingsContent s.now st result }
{
    let st = fixed(s, st, BIG, 4, 1);
    let st = boolean(s, st);
    let st = boolean(s, st);
    let st = boolean(s, st);
    let st = boolean(s, st);
    let st = boolean(s, st);
    let st = boolean(s, st);
    let st = any(s, st, 4);
    string(s, st, BIG, 4)
}

pub fn print_settings(s: &[u8], st: Step) -> Step
    ensures { Reads grammar.PrintSettings s.now st result }
{
    let p = part(s, st, LITTLE, 4);
    close(p, content(bytes(s, p), Ok(0)))
}
