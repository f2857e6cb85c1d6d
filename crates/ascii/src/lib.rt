// Runs of bytes under 128, which stand for themselves in every page and in UTF-8.
#![tactic(auto)]

ghost use Rattle.std.specs.Prelude.{◌≡◌, ℕ, ◌*◌, ◌≤◌, ◌<◌, length, take, drop, bit_or, fold};
ghost use Rattle.convert.specs.Pages.{ascii};
ghost use Rattle.ascii.specs.Runs.{block, Ascii, Run};

// the bytes and code points under it stand for themselves
pub const ASCII: u8 = 128;

// bytes that are tested together: many in a long run, then few where it ends
const MANY: usize = 128;

const FEW: usize = 8;

// bytes that are stored together, of which those before the first that isn't under 128 count
pub const BLOCK: usize = 64;

const BLOCK_END: u8 = 64;

// All bits of some bytes. The fold has no exit on the way, so that many bytes are taken at once.
fn joined(bytes: &[u8]) -> u8
    ensures { result ≡ fold bit_or 0 bytes.now }
{
    bytes.iter().fold(0, |bits, b| bits | b)
}

// A place up to which all bytes from `start` on are under 128: the end of the last N that are tested together.
fn low_end<const N: usize>(input: &[u8], start: usize) -> usize
    requires { 0 < N }
    ensures { Run input.now start result }
{
    let Some(mut rest) = input.get(start..) else {
        return start;
    };
    while let Some((part, after)) = rest.split_at_checked(N)
        && joined(part) < ASCII
    {
        rest = after;
    }
    input.len() - rest.len()
}

// The same for as many as are tested together in a long run.
pub fn long_run_end(input: &[u8], start: usize) -> usize
    ensures { Run input.now start result }
{
    low_end::<MANY>(input, start)
}

// The same to the last byte. (The first of another kind, or the end; but any such place serves, so the contract says no more.)
pub fn run_end(input: &[u8], start: usize) -> usize
    ensures { Run input.now start result }
{
    if input.len() <= start || ASCII <= input[start] {
        return start;
    }
    let many = low_end::<MANY>(input, start);
    let few = low_end::<FEW>(input, many);
    low_end::<1>(input, few)
}

// How many of the bytes of a block stand before the first that isn't under 128: the least of their places; 0 if no block is left. The loop
// has no exit on the way. (It counts in the type of the places, so that it is made into vector instructions: one over the block with its places isn't.)
pub fn leading(input: &[u8], i: usize) -> usize
    ensures { (result ≤ block) × Ascii input.now i result }
{
    if input.len() < i || input.len() - i < BLOCK {
        return 0;
    }
    let part = &input[i..i + BLOCK];
    let mut n = BLOCK_END;
    for j in 0..BLOCK_END {
        n = n.min(place_of(part[usize::from(j)], j));
    }
    usize::from(n)
}

// The place j of a byte that isn't under 128, the block's end for another.
fn place_of(b: u8, j: u8) -> u8
    ensures { j < result → b < ascii }
{
    if b < ASCII { BLOCK_END } else { j }
}
