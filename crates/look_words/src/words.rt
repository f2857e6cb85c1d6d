// Runs of 32-bit words, stored one by one.
ghost use Rattle.store.specs.Puts.{PutsWords};

use layout::Step;
use refusals::{Reason, Refusal};

// Words from a position on, one after the other, and the position after them, as `store::words::put` has it. The runs of a look are made of
// single values: a copy would wait for the stores of these into an array.
pub fn put(out: &mut [u32], st: Step, words: &[u32]) -> Step
    ensures { PutsWords words.now out.old st out.new result }
{
    let mut at = st?;
    for i in 0..words.len() {
        if out.len() <= at {
            return Err(Refusal {
                reason: Reason::DoesNotFit,
                place: at,
            });
        }
        out[at] = words[i];
        at += 1;
    }
    Ok(at)
}
