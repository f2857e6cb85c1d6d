// The rows of UTF-8, by value. (An entry of a page is a number and no `char`: to be one it would be tested again.)
ghost use Rattle.std.specs.Prelude.{◌≡◌, length};
ghost use Rattle.convert.specs.Utf8 as utf8;
ghost use Rattle.codepages.specs.Laws.Branches.{lead_size};

pub const TWO_BYTES: u32 = 128;

pub const THREE_BYTES: u32 = 2048;

pub const FOUR_BYTES: u32 = 65536;

// How many bytes a character of up to three has, by its first one.
pub fn lead_size(a: u8) -> usize
    ensures { result ≡ lead_size a }
{
    if a < 128 {
        return 1;
    }
    if a < 224 {
        return 2;
    }
    3
}

// How many bytes a code point has.
pub fn size(c: u32) -> usize
    ensures { result ≡ length (utf8.encode c) }
{
    if c < TWO_BYTES {
        return 1;
    }
    if c < THREE_BYTES {
        return 2;
    }
    if c < FOUR_BYTES {
        return 3;
    }
    4
}
