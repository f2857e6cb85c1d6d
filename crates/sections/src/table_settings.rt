// TableSettings.
ghost use Rattle.grammar.specs.Conventions as notation;
ghost use Rattle.layout.specs.Reads.{Reads};
ghost use Rattle.grammar.specs.Sections as grammar;

use crate::arrays::{pairs, triples};
use crate::optional::in_version_3;
use layout::number::{any, boolean, fixed};
use layout::{BIG, LITTLE, Step};
use regions::production::Production;
use regions::region::{bytes, close, close_open, part, string};
use regions::rows::many;

fn breaks_content(s: &[u8], st: Step) -> Step
    ensures { Reads grammar.BreaksContent s.now st result }
{
    let st = many(s, st, BIG, 4);
    let st = many(s, st, BIG, 4);
    let st = pairs(s, st);
    let st = pairs(s, st);
    let st = triples(s, st);
    triples(s, st)
}

fn breaks(s: &[u8], st: Step) -> Step
    ensures { Reads (notation.becount grammar.BreaksContent) s.now st result }
{
    let p = part(s, st, BIG, 4);
    close(p, breaks_content(bytes(s, p), Ok(0)))
}

fn flags(s: &[u8], st: Step) -> Step
    ensures { Reads grammar.TableFlags s.now st result }
{
    let st = fixed(s, st, BIG, 4, 1);
    let st = any(s, st, 4);
    let st = any(s, st, 4);
    let st = boolean(s, st);
    let st = boolean(s, st);
    let st = boolean(s, st);
    let st = boolean(s, st);
    any(s, st, 1)
}

#[derive(Clone, Copy)]
struct Content;

impl Production for Content {
    ghost layout = { λ _. grammar.TableSettingsContent };

    fn read(&self, s: &[u8], st: Step) -> Step {
        let st = flags(s, st);
        let st = breaks(s, st);
        let st = string(s, st, BIG, 4);
        string(s, st, BIG, 4)
    }
}

pub fn table_settings(s: &[u8], st: Step, version: u64) -> Step
    ensures { Reads (grammar.TableSettings version) s.now st result }
{
    let p = part(s, st, LITTLE, 4);
    close_open(p, in_version_3(bytes(s, p), Ok(0), &Content, version))
}
