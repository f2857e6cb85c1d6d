// One step of a call with room: a byte is taken, or a code acts. Where eight bytes of a group or a block are there, they are taken at once.
ghost use Rattle.std.specs.Prelude.{◌≡◌, true, false, ◌%◌, eqb, drop, Option, IfSome, MatchOption};
ghost use Rattle.case_stream.specs.Stream as stream;
ghost use Rattle.case_state.specs.Cursor.{Good};
ghost use Rattle.cases.specs.Steps as spec;

use crate::bytes::eight_bytes;
use crate::cursors::{acting, blocked, following, gathered, passed, stopped};
use case_codes::{Verdict, judge};
use case_state::powers::power;
use case_state::{ACTS, BAD_CODE, Cursor, ENDED, GATHERS, LIMIT, TOO_MANY};
use layout::number::left;

// A step, or eight at once: the state after it, how many bytes it takes, and the element that it writes.
#[derive(Clone, Copy)]
pub struct Moved {
    pub cursor: Cursor,
    pub takes: usize,
    pub element: Option<u64>,
}

// A step that writes nothing.
fn silent(cursor: Cursor, takes: usize) -> Option<Moved>
    ensures { result ≡ spec.silent cursor takes }
{
    Some(Moved {
        cursor,
        takes,
        element: None,
    })
}

// A step that writes an element.
fn writing(cursor: Cursor, takes: usize, element: u64) -> Option<Moved>
    ensures { result ≡ spec.writing cursor takes element }
{
    Some(Moved {
        cursor,
        takes,
        element: Some(element),
    })
}

// A byte of a group, or the byte too many.
fn code_byte(kind: u8, count: usize, bias: u8, c: Cursor, b: u8) -> Option<Moved>
    requires { (c.phase ≡ 0) × Good count c }
    ensures { spec.Advances kind count bias c true b result }
{
    if c.taken < LIMIT {
        silent(gathered(c, b), 1)
    } else {
        silent(stopped(c, TOO_MANY, 0), 0)
    }
}

// A byte of a block, the last of which writes it, or the byte too many.
fn block_byte(kind: u8, count: usize, bias: u8, c: Cursor, b: u8) -> Option<Moved>
    requires { (c.phase ≡ 1) × Good count c × (stream.says kind bias (c.codes % 256) ≡ stream.block) }
    ensures { spec.Advances kind count bias c true b result }
{
    if c.taken == LIMIT {
        return silent(stopped(c, TOO_MANY, 0), 0);
    }
    let block = c.block + (b as u64) * power(c.filled);
    if c.filled < 7 {
        silent(blocked(c, block), 1)
    } else {
        writing(passed(c, following(c.at, count), c.taken + 1), 1, block)
    }
}

// Whether the eight bytes of a group or a block are there, of which none is held, and none of them is one too many.
#[tactic(auto, unfolding(sizes::specs::Basics::pick, crate::specs::Steps::whole))]
fn whole(c: Cursor, held: usize, rest: usize) -> bool
    ensures { result ≡ spec.whole c held rest }
{
    8 <= rest && c.taken <= LIMIT - 8 && held == 0
}

// The bytes of a group: eight at once, the same as eight steps, or one.
fn take_codes(kind: u8, count: usize, bias: u8, c: Cursor, input: &[u8], i: usize) -> Option<Moved>
    requires { (c.phase ≡ 0) × Good count c }
    ensures { spec.Strides kind count bias c (drop i input.now) result }
{
    if whole(c, c.left, left(input, i)) {
        let codes = eight_bytes(input, i);
        return silent(acting(c.at, c.taken + 8, c.taken, codes, 8), 8);
    }
    if i < input.len() {
        return code_byte(kind, count, bias, c, input[i]);
    }
    None
}

// The bytes of the next code's block: eight at once, the same as eight steps, or one.
fn take_block(kind: u8, count: usize, bias: u8, c: Cursor, input: &[u8], i: usize) -> Option<Moved>
    requires { (c.phase ≡ 1) × Good count c × (stream.says kind bias (c.codes % 256) ≡ stream.block) }
    ensures { spec.Strides kind count bias c (drop i input.now) result }
{
    if whole(c, c.filled, left(input, i)) {
        let block = eight_bytes(input, i);
        return writing(passed(c, following(c.at, count), c.taken + 8), 8, block);
    }
    if i < input.len() {
        return block_byte(kind, count, bias, c, input[i]);
    }
    None
}

// The next code acts, or takes bytes of its block.
fn act(kind: u8, count: usize, bias: u8, c: Cursor, input: &[u8], i: usize) -> Option<Moved>
    requires { (c.phase ≡ 1) × Good count c }
    ensures { spec.Strides kind count bias c (drop i input.now) result }
{
    match judge(kind, bias, (c.codes % 256) as u8) {
        Verdict::Skip => silent(passed(c, c.at, c.taken), 0),
        Verdict::Finish => silent(stopped(c, ENDED, 0), 0),
        Verdict::Wrong => silent(stopped(c, BAD_CODE, c.place), 0),
        Verdict::Gives(x) => writing(passed(c, following(c.at, count), c.taken), 0, x),
        Verdict::Block => take_block(kind, count, bias, c, input, i),
    }
}

// A step, or eight at once, with the input from i on. (Each function that it calls is called in one place, so that the compiler puts it into
// the loop. A code that gives an element is the usual case: it meets no test of the input.)
pub fn stride(kind: u8, count: usize, bias: u8, c: Cursor, input: &[u8], i: usize) -> Option<Moved>
    requires { Good count c }
    ensures { spec.Strides kind count bias c (drop i input.now) result }
{
    match c.phase {
        GATHERS => take_codes(kind, count, bias, c, input, i),
        ACTS => act(kind, count, bias, c, input, i),
        _ => None,
    }
}

// The state after a code that gives an element, and the element; nothing where the next one gives none.
pub fn give(kind: u8, count: usize, bias: u8, c: Cursor) -> Option<(Cursor, u64)>
    requires { Good count c }
    ensures { IfSome result (λ given. spec.Given kind count bias c given.0 given.1) }
{
    if c.phase != ACTS {
        return None;
    }
    match judge(kind, bias, (c.codes % 256) as u8) {
        Verdict::Gives(x) => Some((passed(c, following(c.at, count), c.taken), x)),
        _ => None,
    }
}
