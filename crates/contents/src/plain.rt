// A number with no modifier and no byte 00 before it, which most cells are: 01 58, its format and its double. It is known by its first two
// bytes, and its fields have fixed places.
ghost use Rattle.std.specs.Prelude.{◌≡◌};
ghost use Rattle.std.specs.Prelude.{Ok, Err};
ghost use Rattle.grammar.specs.Layout.{little};
ghost use Rattle.layout.specs.Reads.{peek};
ghost use Rattle.contents.specs.Laws.Plain as spec;

use crate::readable;
use layout::LITTLE;
use layout::number::peek;

// Its length in bytes.
pub const PLAIN_BYTES: usize = 14;

pub fn is_plain(s: &[u8], version: u64) -> bool
    ensures { result ≡ spec.plain version s.now }
{
    if s.len() < PLAIN_BYTES {
        return false;
    }
    if readable(s, version).is_err() {
        return false;
    }
    peek(s, Ok(0), LITTLE, 1) == 1 && peek(s, Ok(1), LITTLE, 1) == 0x58
}

// The fields of one.
pub fn plain_format(s: &[u8]) -> u32
    ensures { result ≡ peek little 4 s.now (Ok 2) }
{
    peek(s, Ok(2), LITTLE, 4) as u32
}

pub fn plain_bits(s: &[u8]) -> u64
    ensures { result ≡ peek little 8 s.now (Ok 6) }
{
    peek(s, Ok(6), LITTLE, 8)
}
