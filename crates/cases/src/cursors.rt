// A state with one more byte, or one code fewer. What has acted is cleared.
ghost use Rattle.std.specs.Prelude.{◌≡◌, ◌+◌, ◌%◌, ◌^◌, ◌≤◌, ◌<◌};
ghost use Rattle.case_stream.specs.Stream as stream;
ghost use Rattle.case_state.specs.Cursor as numbers;
ghost use Rattle.cases.specs.Steps as spec;

use case_state::powers::power;
use case_state::{ACTS, Cursor, GATHERS};

// Codes that act next, the first of them at this place.
pub fn acting(at: usize, n: u32, place: u32, codes: u64, left: usize) -> Cursor
    ensures { result ≡ numbers.act_at at n place codes left 0 0 }
{
    Cursor {
        at,
        taken: n,
        phase: ACTS,
        place,
        codes,
        left,
        block: 0,
        filled: 0,
    }
}

// Codes that are gathered.
pub fn gathering(at: usize, n: u32, codes: u64, left: usize) -> Cursor
    ensures { result ≡ numbers.gather_at at n left codes }
{
    Cursor {
        at,
        taken: n,
        phase: GATHERS,
        place: 0,
        codes,
        left,
        block: 0,
        filled: 0,
    }
}

// A group with one more code, which act once there are eight.
#[tactic(auto, unfolding(sizes::specs::Basics::pick))]
pub fn gathered(c: Cursor, b: u8) -> Cursor
    requires { (c.left < 8) × (c.codes < 256 ^ c.left) × (c.taken < stream.limit) × (c.left ≤ c.taken) }
    ensures { result ≡ spec.gather_byte c b }
{
    let codes = c.codes + (b as u64) * power(c.left);
    if c.left < 7 {
        gathering(c.at, c.taken + 1, codes, c.left + 1)
    } else {
        acting(c.at, c.taken + 1, c.taken - 7, codes, 8)
    }
}

// The next code has acted: the position in the case and the bytes taken are given.
#[tactic(auto, unfolding(sizes::specs::Basics::pick))]
pub fn passed(c: Cursor, at: usize, n: u32) -> Cursor
    requires { c.place < stream.limit }
    ensures { result ≡ spec.passed c at n }
{
    if 1 < c.left {
        acting(at, n, c.place + 1, c.codes / 256, c.left - 1)
    } else {
        gathering(at, n, 0, 0)
    }
}

// The next code's block, with one more byte.
pub fn blocked(c: Cursor, block: u64) -> Cursor
    requires { (c.taken < stream.limit) × (c.filled < 8) }
    ensures { result ≡ numbers.act_at c.at (c.taken + 1) c.place c.codes c.left block (c.filled + 1) }
{
    Cursor {
        at: c.at,
        taken: c.taken + 1,
        phase: ACTS,
        place: c.place,
        codes: c.codes,
        left: c.left,
        block,
        filled: c.filled + 1,
    }
}

// Reading stops for good.
pub fn stopped(c: Cursor, phase: u32, place: u32) -> Cursor
    ensures { result ≡ spec.stop_at c phase place }
{
    Cursor {
        at: c.at,
        taken: c.taken,
        phase,
        place,
        codes: 0,
        left: 0,
        block: 0,
        filled: 0,
    }
}

// The position after this one in a case of `count` elements.
pub fn following(at: usize, count: usize) -> usize
    requires { at < count }
    ensures { result ≡ (at + 1) % count }
{
    if at + 1 < count { at + 1 } else { 0 }
}
