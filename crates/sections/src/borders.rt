// Borders.
ghost use Rattle.layout.specs.Reads.{Reads};
ghost use Rattle.grammar.specs.Sections as grammar;

use crate::arrays::triples;
use layout::number::{boolean, fixed};
use layout::{BIG, LITTLE, Step};
use regions::region::{bytes, close, part};

fn content(s: &[u8], st: Step) -> Step
    ensures { Reads grammar.BordersContent s.now st result }
{
    let st = fixed(s, st, BIG, 4, 1);
    let st = triples(s, st);
    let st = boolean(s, st);
    let st = fixed(s, st, LITTLE, 1, 0x00);
    let st = fixed(s, st, LITTLE, 1, 0x00);
    fixed(s, st, LITTLE, 1, 0x00)
}

pub fn borders(s: &[u8], st: Step) -> Step
    ensures { Reads grammar.Borders s.now st result }
{
    let p = part(s, st, LITTLE, 4);
    close(p, content(bytes(s, p), Ok(0)))
}
