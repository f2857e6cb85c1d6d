// The count of a region: its four bytes are left out until the content is written, and then stored.
ghost use Rattle.std.specs.Prelude.{◌≡◌, ◌+◌, ◌-◌};
ghost use Rattle.refusals.specs.Numbers.{by_number};
ghost use Rattle.layout.specs.Reads.{order};
ghost use Rattle.store.specs.Put.{opened};
ghost use Rattle.store.specs.Puts.{Closes};

use crate::write::number;
use layout::Step;
use layout::number::left;
use refusals::{Reason, Refusal};

// Past the count of a region that starts at a position.
pub fn start(buf: &[u8], st: Step) -> Step
    ensures { by_number result ≡ (opened buf.now (by_number st)).1 }
{
    let at = st?;
    if 4 <= left(buf, at) {
        Ok(at + 4)
    } else {
        Err(Refusal {
            reason: Reason::DoesNotFit,
            place: at,
        })
    }
}

// How long the content is of a region from one position to another.
fn content_length(at: usize, p: usize) -> usize
    ensures { result ≡ p - (at + 4) }
{
    p.saturating_sub(at).saturating_sub(4)
}

// The count of a region that starts at a position and whose content ends at another.
pub fn end(buf: &mut [u8], first: Step, last: Step, high: bool) -> Step
    ensures { Closes (order high) first buf.old last buf.new result }
{
    let Ok(at) = first else {
        return last;
    };
    let p = last?;
    number(buf, first, high, 4, content_length(at, p) as u64, Ok(()))?;
    Ok(p)
}
