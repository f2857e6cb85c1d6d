// Whether one of some bytes is 0. Most strings are short: two parts that may overlap are looked through then, each of a size that the
// compiler knows, so it turns each into one vector instruction.
#![tactic(auto)]

ghost use Rattle.std.specs.Prelude.{◌≡◌, ◌≤◌, ◌*◌, length};
ghost use Rattle.sizes.specs.Basics.{among};

// The bytes that are looked through at a time in a long part.
const BLOCK: usize = 16;

// A longer part is halved.
const LONG: usize = 4096;

// All are looked at, with no way out of the loop: so the compiler turns it into vector instructions.
fn any_null(s: &[u8]) -> bool
    ensures { result ≡ among 0 s.now }
{
    let mut found = false;
    for b in s {
        found |= 0 == *b;
    }
    found
}

// The first k bytes and the last k are all there are.
fn null_at_ends(s: &[u8], k: usize) -> bool
    requires { (k ≤ length s.now) × (length s.now ≤ 2 * k) }
    ensures { result ≡ among 0 s.now }
{
    let last = s.len() - k;
    any_null(&s[..k]) | any_null(&s[last..])
}

fn null_in_short(s: &[u8]) -> bool
    requires { length s.now ≤ 16 }
    ensures { result ≡ among 0 s.now }
{
    if 8 <= s.len() {
        null_at_ends(s, 8)
    } else if 4 <= s.len() {
        null_at_ends(s, 4)
    } else {
        any_null(s)
    }
}

fn null_in_blocks(s: &[u8]) -> bool
    ensures { result ≡ among 0 s.now }
{
    let mut found = false;
    let blocks = s.chunks_exact(BLOCK);
    let rest = blocks.remainder();
    for block in blocks {
        found |= any_null(block);
    }
    found | null_in_short(rest)
}

// By halves, down to parts that are not long. A function that calls itself is not put into those that call it: so the readers of strings
// stay small, and are put into those that call them.
fn null_in_halves(s: &[u8]) -> bool
    ensures { result ≡ among 0 s.now }
{
    if s.len() < LONG {
        return null_in_blocks(s);
    }
    let half = s.len() / 2;
    null_in_halves(&s[..half]) | null_in_halves(&s[half..])
}

// One of the bytes is 0. Many strings are empty.
pub fn has_null(s: &[u8]) -> bool
    ensures { result ≡ among 0 s.now }
{
    if s.is_empty() {
        false
    } else if s.len() < BLOCK {
        null_in_short(s)
    } else {
        null_in_halves(s)
    }
}
