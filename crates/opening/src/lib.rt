// The Header and the sections before the dimensions, and the end of a member.
#![tactic(auto)]

ghost use Rattle.std.specs.Prelude.{◌≡◌};
ghost use Rattle.refusals.specs.Numbers.{by_number};
ghost use Rattle.opening.specs.Laws.Header.{HeaderRead};
ghost use Rattle.opening.specs.Laws.Ends.{end_at};
ghost use Rattle.opening.specs.Laws.Opening.{OpeningRead};

use layout::number::peek;
use layout::run::past;
use layout::{LITTLE, Step};
use refusals::{Reason, Refusal};
use sections::front;
use sections::header::{start, version as known_version};
use sizes::MEMBER_BYTES;

// The version of a member, and the place after what was read; or the refusal.
pub type Head = Result<(u64, usize), Refusal>;

// The Header as far as its version.
fn header(s: &[u8]) -> Head
    ensures { HeaderRead s.now (by_number result) }
{
    let st = start(s, Ok(0));
    let version = peek(s, st, LITTLE, 4);
    let at = known_version(s, st)?;
    Ok((version, at))
}

// The Header and the sections before the dimensions, of a member that is no longer than members are.
pub fn opening(s: &[u8]) -> Head
    ensures { OpeningRead s.now (by_number result) }
{
    if MEMBER_BYTES < s.len() {
        return Err(Refusal {
            reason: Reason::TooLong,
            place: 0,
        });
    }
    let (version, start) = header(s)?;
    let end = front(s, Ok(start), version)?;
    Ok((version, end))
}

// The end of a member: an optional 01, and nothing after it.
pub fn ending(s: &[u8], at: usize) -> Step
    ensures { by_number result ≡ end_at s.now at }
{
    let end = past(s, at, 0x01, 1);
    if end < s.len() {
        return Err(Refusal {
            reason: Reason::BytesLeft,
            place: end,
        });
    }
    Ok(at)
}
