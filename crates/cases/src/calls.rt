// A call: steps as long as there is one and an element fits.
ghost use Rattle.std.specs.Prelude.{◌≡◌, ◌+◌, ◌*◌, ◌/◌, ◌≤◌, ◌<◌, length};
ghost use Rattle.case_state.specs.Cursor.{Good};
ghost use Rattle.cases.specs.Steps as spec;
ghost use Rattle.cases.specs.Laws.Loop.{Gone};

use crate::bytes::put;
use crate::steps::{give, stride};
use case_state::{ACTS, Cursor};

// Where a call has come to: bytes taken of its input, elements written to its output.
#[derive(Clone, Copy)]
pub struct Fed {
    pub cursor: Cursor,
    pub taken: usize,
    pub written: usize,
}

// An element is written, if there is one; how many there are then.
fn emit(output: &mut [u8], w: usize, element: Option<u64>) -> usize
    requires { 8 * w + 8 ≤ length output.old }
    ensures { (output.new ≡ spec.emitted output.old w element) × (result ≡ spec.counted w element) }
{
    match element {
        Some(x) => {
            put(output, 8 * w, x);
            w + 1
        }
        None => w,
    }
}

// Codes that give elements, as long as there is one and an element fits. No byte is taken, so there is little to hold at a time. (The phase is
// tested after each code too, though `give` tests it: codes act whenever the loop goes on, so the compiler holds no phase in it, and has the
// position in the case in a register.)
fn give_all(
    kinds: &[u8; 256],
    count: usize,
    bias: u8,
    start: Cursor,
    output: &mut [u8],
    from: usize,
) -> (Cursor, usize)
    requires { (count ≤ 256) × Good count start × (from < length output.old / 8) }
    ensures { Gone (spec.firsts count kinds.now) count bias (length output.old / 8) output.old start from output.new result.0 result.1 }
{
    let room = output.len() / 8;
    let mut c = start;
    for w in from..room {
        let Some((next, element)) = give(kinds[c.at], count, bias, c) else {
            return (c, w);
        };
        put(output, 8 * w, element);
        c = next;
        if c.phase != ACTS {
            return (c, w + 1);
        }
    }
    (c, room)
}

// "while no further element fits it takes no byte and acts on no code"
pub fn run(
    kinds: &[u8; 256],
    count: usize,
    bias: u8,
    start: Cursor,
    input: &[u8],
    output: &mut [u8],
) -> Fed
    requires { (count ≤ 256) × Good count start }
    ensures { spec.Fed_is (spec.firsts count kinds.now) count bias (length output.old / 8) start input.now output.old
        output.new result.cursor result.taken result.written }
{
    let room = output.len() / 8;
    let mut c = start;
    let mut i: usize = 0;
    let mut w: usize = 0;
    while w < room {
        let (next, written) = give_all(kinds, count, bias, c, output, w);
        c = next;
        w = written;
        if w < room {
            let Some(m) = stride(kinds[c.at], count, bias, c, input, i) else {
                break;
            };
            w = emit(output, w, m.element);
            i += m.takes;
            c = m.cursor;
        }
    }
    Fed {
        cursor: c,
        taken: i,
        written: w,
    }
}
