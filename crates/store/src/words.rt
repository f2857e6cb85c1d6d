// Runs of 32-bit words.
ghost use Rattle.std.specs.Prelude.{Ok};
ghost use Rattle.store.specs.Puts.{PutsWords};

use layout::Step;
use refusals::{Reason, Refusal};

// Words from a position on, one after the other, and the position after them. Where they don't all fit, those that fit are stored. All are
// stored in one copy: callers give so many words that the compiler knows how long it is.
pub fn put(out: &mut [u32], st: Step, words: &[u32]) -> Step
    ensures { PutsWords words.now out.old st out.new result }
{
    let at = st?;
    if at <= out.len() && words.len() <= out.len() - at {
        let n = words.len();
        out[at..at + n].copy_from_slice(words);
        return Ok(at + n);
    }
    put_some(out, at, words)
}

// The same where they may not all fit.
#[cold]
fn put_some(out: &mut [u32], at: usize, words: &[u32]) -> Step
    ensures { PutsWords words.now out.old (Ok at) out.new result }
{
    let start = at.min(out.len());
    let n = words.len().min(out.len() - start);
    out[start..start + n].copy_from_slice(&words[..n]);
    if n < words.len() {
        return Err(Refusal {
            reason: Reason::DoesNotFit,
            place: at + n,
        });
    }
    Ok(at + n)
}
