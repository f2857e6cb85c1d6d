// What was written into a buffer, handed over into an output.
ghost use Rattle.store.specs.Deliver.{Delivers};

use crate::Written;
use layout::Step;
use refusals::{Reason, Refusal};

// The bytes of `buf` up to a position, where the output has room for them; otherwise, and after a refusal, the output stays as it was.
pub fn deliver(buf: &[u8], st: Step, out: &mut [u8]) -> Written
    ensures { Delivers buf.now st out.old result out.new }
{
    let at = st?;
    let n = at.min(buf.len());
    if n <= out.len() {
        out[..n].copy_from_slice(&buf[..n]);
        Ok(n)
    } else {
        Err(Refusal {
            reason: Reason::OutputTooShort,
            place: 0,
        })
    }
}
