// A run of one byte.
ghost use Rattle.std.specs.Prelude.{◌≡◌, ◌+◌, drop};
ghost use Rattle.grammar.specs.Laws.Layout.Read.{lead};
ghost use Rattle.refusals.specs.Numbers.{by_number};
ghost use Rattle.layout.specs.Reads as spec;

use crate::Step;

// Past the bytes b that come next at a position, as far as n.
pub fn past(s: &[u8], at: usize, b: u8, n: usize) -> usize
    ensures { result ≡ at + lead b n (drop at s.now) }
{
    let mut i = at;
    let mut k = n;
    while 0 < k {
        if s.len() <= i {
            return i;
        }
        if s[i] != b {
            return i;
        }
        i += 1;
        k -= 1;
    }
    i
}

// The same after a step.
pub fn skip(s: &[u8], st: Step, b: u8, n: usize) -> Step
    ensures { by_number result ≡ spec.skip b n s.now (by_number st) }
{
    let at = st?;
    Ok(past(s, at, b, n))
}
