// Past a symbol, and one that doesn't pass its test.
ghost use Rattle.std.specs.Prelude.{◌≡◌, Ok};
ghost use Rattle.refusals.specs.Numbers.{number, by_number};
ghost use Rattle.look_rules.specs.Checks as spec;

use fields::Read;
use layout::Step;
use refusals::{Reason, Refusal};

// The position after a value, whichever it is.
pub fn past<T: Copy>(read: Read<T>) -> Step
    ensures { result ≡ spec.past read }
{
    let (_, at) = read?;
    Ok(at)
}

// Past a symbol that was read from one position to the next; or refused where it begins, where it isn't good.
pub fn told(at: usize, next: usize, good: bool, reason: Reason) -> Step
    ensures { by_number result ≡ spec.told (Ok at) (Ok next) good (number reason) }
{
    if good {
        Ok(next)
    } else {
        Err(Refusal { reason, place: at })
    }
}
