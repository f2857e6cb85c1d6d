// The state between calls of compressed case data (document 02, T-05), and whether numbers are one. `specs/Cursor.antt` says which state of
// `case_stream`'s machine it stands for.
#![tactic(auto)]

pub mod powers; // powers of 256
pub mod valid; // whether a state is one

// ---- the numbers of 004 and of document 02: `case_stream/specs/Stream.antt` has the same ones for the contracts

// codes: the end of the data, a block, eight spaces, the missing double
pub const FINISH: u8 = 252;

pub const BLOCK: u8 = 253;

pub const SPACES: u8 = 254;

pub const MISSING: u8 = 255;

// kinds of elements (bytes, and no enum: `start` of `cases` takes them as C gives them, and any other byte gets an answer)
pub const NUMERIC: u8 = 0;

pub const STRING: u8 = 1;
// the most elements of a case, and the largest bias
pub const MOST_KINDS: usize = 256;

pub const MOST_BIAS: u32 = 255;
// the first byte too many
pub const LIMIT: u32 = 4294967295;

// ---- phases of a state: a group's codes are gathered; they act; or reading has stopped: by a 252, by 22, by 7. (Words, and no enum: `feed`
// and `finish` of `cases` answer for a state with any number; and an enum is a byte with three unused ones behind it. Tried: the loops of
// `cases` were slower for blocks, though not for codes that give elements.)

pub const GATHERS: u32 = 0;

pub const ACTS: u32 = 1;

pub const ENDED: u32 = 252;

pub const BAD_CODE: u32 = 22;

pub const TOO_MANY: u32 = 7;

// A state but for its kinds and bias: the position in the case, the bytes taken, and the phase. `codes` are those gathered, or still to act, the
// first of them the lowest byte, `left` of them; `place` is the place of the next code, or of 22; `block` has the `filled` bytes of the
// next code's block. Whatever is not in use is 0.
#[derive(Clone, Copy)]
pub struct Cursor {
    pub at: usize,
    pub taken: u32,
    pub phase: u32,
    pub place: u32,
    pub codes: u64,
    pub left: usize,
    pub block: u64,
    pub filled: usize,
}

// The state between calls: the kinds of a case's elements, `count` of them, and the bias; then what the calls change. (An array and a count
// beside it: a state holds its kinds itself, with no heap.)
#[derive(Clone, Copy)]
pub struct State {
    pub kinds: [u8; 256],
    pub count: usize,
    pub bias: u32,
    pub cursor: Cursor,
}
