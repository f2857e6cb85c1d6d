// A production, that many of it, a count and as many, and one that may be there.
ghost use Rattle.grammar.specs.Layout.{Layout, any_number, number, times};
ghost use Rattle.grammar.specs.Conventions as notation;
ghost use Rattle.layout.specs.Reads.{Reads, order};

use layout::number::{any, one_of_two, peek};
use layout::{LITTLE, Step};

// What reads one layout.
pub trait Production {
    ghost layout: { Self → Layout };

    fn read(&self, s: &[u8], st: Step) -> Step
        ensures { Reads (layout self.now) s.now st result };
}

// n of a production.
pub fn times<P: Production>(s: &[u8], st: Step, production: &P, n: u64) -> Step
    ensures { Reads (times n (P.layout production.now)) s.now st result }
{
    let mut at = st?;
    for _ in 0..n {
        at = production.read(s, Ok(at))?;
    }
    Ok(at)
}

// A count of four bytes and as many of a production.
pub fn counted<P: Production>(s: &[u8], st: Step, high: bool, production: &P) -> Step
    ensures { Reads (number (order high) 4 any_number (λ n. times n (P.layout production.now))) s.now st result }
{
    let n = peek(s, st, high, 4);
    times(s, any(s, st, 4), production, n)
}

// A production after a byte 31, or a byte 58 alone.
pub fn optional<P: Production>(s: &[u8], st: Step, production: &P) -> Step
    ensures { Reads (notation.if31 (P.layout production.now)) s.now st result }
{
    let x = peek(s, st, LITTLE, 1);
    let at = one_of_two(s, st, 0x31, 0x58);
    if x == 0x31 {
        production.read(s, at)
    } else {
        at
    }
}
