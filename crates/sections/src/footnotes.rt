// Footnotes.
ghost use Rattle.layout.specs.Reads.{Reads};
ghost use Rattle.grammar.specs.Sections as grammar;

use crate::optional::optional_value;
use layout::number::{any, count, peek};
use layout::{LITTLE, Step};
use regions::production::{Production, times};
use sizes::MOST_FOOTNOTES;
use value::value;

const LIMIT: u64 = MOST_FOOTNOTES as u64;

// A Footnote, in a member of that version.
#[derive(Clone, Copy)]
struct Footnote {
    version: u64,
}

impl Production for Footnote {
    ghost layout = { λ x. grammar.Footnote x.version };

    fn read(&self, s: &[u8], st: Step) -> Step {
        let st = value(s, st, self.version);
        let st = optional_value(s, st, self.version);
        any(s, st, 4)
    }
}

pub fn footnotes(s: &[u8], st: Step, version: u64) -> Step
    ensures { Reads (grammar.Footnotes version) s.now st result }
{
    let n = peek(s, st, LITTLE, 4);
    times(s, count(s, st, LIMIT), &Footnote { version }, n)
}
