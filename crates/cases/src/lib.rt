// Compressed case data as it arrives (document 02, T-05; source document 004, "Data Record"): a state that goes in and comes back, fed with
// bytes in any cuts and an output of any room. `crates/case_stream/specs` says what a stream means and what a call does; `specs/Answers.antt`
// what these functions answer.
#![tactic(auto)]

mod bytes; // bytes of the input and of the output
mod calls; // a call: steps as long as there is one and an element fits
mod cursors; // a state with one more byte, or one code fewer
mod steps; // one step of a call

ghost use Rattle.std.specs.Prelude.{◌≡◌, length, ◌≤◌};
ghost use Rattle.case_stream.specs.Stream.{limit};
ghost use Rattle.cases.specs.Answers as spec;

use crate::calls::run;
use crate::cursors::gathering;
use case_state::valid::{kinds_ok, state_ok};
use case_state::{BAD_CODE, Cursor, ENDED, GATHERS, LIMIT, MOST_BIAS, MOST_KINDS, State, TOO_MANY};
use refusals::{Reason, Refusal};

// Nothing, or a refusal.
pub type Answer = Result<(), Refusal>;

// A call: the state after it, its answer, the bytes taken and the elements written. (All beside each other: a state that is refused comes
// back too, and elements before a refusal are written.)
#[derive(Clone, Copy)]
pub struct Call {
    pub state: State,
    pub answer: Answer,
    pub taken: usize,
    pub written: usize,
}

fn refused(reason: Reason, place: u32) -> Refusal
    ensures { (result ≡ spec.refused reason place) × (result.place ≤ limit) }
{
    Refusal {
        reason,
        place: place as usize,
    }
}

// The kinds of a list, with 0 for those that aren't there.
fn padded(kinds: &[u8]) -> [u8; 256]
    requires { length kinds.now ≤ 256 }
    ensures { result ≡ spec.padded (length kinds.now) kinds.now }
{
    let mut k = [0u8; 256];
    k[..kinds.len()].copy_from_slice(kinds);
    k
}

// The state before the first byte, from the kinds of a case's elements, NUMERIC or STRING, and the bias.
#[tactic(auto, unfolding(sizes::specs::Basics::pick, crate::specs::Answers::start_ok, crate::specs::Answers::start_of))]
pub fn start(kinds: &[u8], bias: u32) -> Result<State, Refusal>
    ensures is { result ≡ spec.start_of kinds.now bias }
    ensures placed { spec.Placed result }
{
    let count = kinds.len();
    if count == 0 || MOST_KINDS < count || MOST_BIAS < bias {
        return Err(refused(Reason::CaseState, 0));
    }
    let kinds = padded(kinds);
    if !kinds_ok(count, &kinds) {
        return Err(refused(Reason::CaseState, 0));
    }
    Ok(State {
        kinds,
        count,
        bias,
        cursor: gathering(0, 0, 0, 0),
    })
}

// The refusal for ever after, of a state that has one.
#[tactic(auto, unfolding(sizes::specs::Basics::pick, crate::specs::Answers::refusal_at))]
fn refusal_of(c: Cursor) -> Answer
    ensures is { result ≡ spec.refusal_at c.phase c.place }
    ensures placed { spec.Placed result }
{
    match c.phase {
        BAD_CODE => Err(refused(Reason::CaseCode, c.place)),
        TOO_MANY => Err(refused(Reason::Limit, LIMIT)),
        _ => Ok(()),
    }
}

// A call: as many bytes of the input are taken and elements written as can be.
pub fn feed(s: State, input: &[u8], output: &mut [u8]) -> Call
    ensures called { spec.Called s input.now output.old output.new result }
    ensures placed { spec.Placed result.answer }
{
    if !state_ok(s) {
        return Call {
            state: s,
            answer: Err(refused(Reason::CaseState, 0)),
            taken: 0,
            written: 0,
        };
    }
    let fed = run(&s.kinds, s.count, s.bias as u8, s.cursor, input, output);
    Call {
        state: State {
            kinds: s.kinds,
            count: s.count,
            bias: s.bias,
            cursor: fed.cursor,
        },
        answer: refusal_of(fed.cursor),
        taken: fed.taken,
        written: fed.written,
    }
}

// 23 at the bytes taken, unless a 252 has acted or there is nothing left to do: no code, no part of a group, no part of a case.
#[tactic(auto, unfolding(sizes::specs::Basics::pick, crate::specs::Answers::end_where, crate::specs::Answers::unfinished_at, crate::specs::Answers::refusal_at))]
fn end_of(c: Cursor) -> Answer
    ensures is { result ≡ spec.end_where c }
    ensures placed { spec.Placed result }
{
    match c.phase {
        ENDED => Ok(()),
        BAD_CODE | TOO_MANY => refusal_of(c),
        GATHERS if c.left == 0 && c.at == 0 => Ok(()),
        _ => Err(refused(Reason::CaseEnd, c.taken)),
    }
}

// The end of the stream: it changes nothing.
pub fn finish(s: State) -> Answer
    ensures is { result ≡ spec.finish_of s }
    ensures placed { spec.Placed result }
{
    if !state_ok(s) {
        return Err(refused(Reason::CaseState, 0));
    }
    end_of(s.cursor)
}
