// The functions of case data for programs in other languages: a state is 32-bit words in a lent area, and so is an answer.
#![tactic(auto)]

mod words; // a state from words, and words of a state

ghost use Rattle.std.specs.Prelude.{◌≡◌, true, length, leb};
ghost use Rattle.cases.specs.Answers.{Placed};
ghost use Rattle.cases_words.specs.Calls as spec;

use crate::words::{load, low, save};
use case_state::State;
use cases::{Answer, feed, finish, start};
use refusals::{Reason, Refusal};
use store::words::put;

// the words of a state: twelve numbers and 256 kinds
pub const STATE_WORDS: usize = 268;

// the words of an answer: a refusal, or 0, and its place; of a call also the bytes taken and the elements written
pub const SHORT_ANSWER: usize = 2;

pub const CALL_ANSWER: usize = 4;

// Whether both areas are long enough.
#[tactic(auto, unfolding(sizes::specs::Basics::pick, crate::specs::Calls::roomy))]
fn roomy(state: usize, answer: usize, n: usize) -> bool
    ensures { result ≡ spec.roomy state answer n }
{
    STATE_WORDS <= state && n <= answer
}

// The number of a refusal, or 0, and its place.
fn answer_words(answer: Answer) -> [u32; 2]
    requires { Placed answer }
    ensures { result ≡ spec.answer_words_of answer }
{
    match answer {
        Ok(()) => [0, 0],
        Err(refusal) => [refusal.reason.number(), refusal.place as u32],
    }
}

// Whether it was no state.
fn no_state(answer: Answer) -> bool
    ensures { result ≡ spec.no_state answer }
{
    match answer {
        Ok(()) => false,
        Err(refusal) => refusal.reason == Reason::CaseState,
    }
}

// The state of a start is settled, unless it is refused.
fn settle(state: &mut [u32], started: Result<State, Refusal>) -> Answer
    requires { leb 268 (length state.old) ≡ true }
    ensures settles { state.new ≡ spec.settled started state.old }
    ensures answers { result ≡ spec.outcome started }
{
    save(state, started?);
    Ok(())
}

// Starts a stream: see `digarumbi_cases_start` of `api`.
pub fn start_words(kinds: &[u8], bias: u32, state: &mut [u32], answer: &mut [u32]) -> usize
    ensures { spec.Started kinds.now bias state.old answer.old result state.new answer.new }
{
    if !roomy(state.len(), answer.len(), SHORT_ANSWER) {
        return 0;
    }
    let answered = settle(state, start(kinds, bias));
    let _ = put(answer, Ok(0), &answer_words(answered));
    SHORT_ANSWER
}

// A call: see `digarumbi_cases_feed` of `api`.
pub fn feed_words(state: &mut [u32], input: &[u8], output: &mut [u8], answer: &mut [u32]) -> usize
    ensures { spec.Fed state.old input.now output.old answer.old result state.new output.new answer.new }
{
    if !roomy(state.len(), answer.len(), CALL_ANSWER) {
        return 0;
    }
    let call = feed(load(state), input, output);
    if !no_state(call.answer) {
        save(state, call.state);
    }
    let [refusal, place] = answer_words(call.answer);
    let _ = put(
        answer,
        Ok(0),
        &[refusal, place, low(call.taken), low(call.written)],
    );
    CALL_ANSWER
}

// The end of a stream: see `digarumbi_cases_end` of `api`.
pub fn end_words(state: &[u32], answer: &mut [u32]) -> usize
    ensures { spec.Ended state.now answer.old result answer.new }
{
    if !roomy(state.len(), answer.len(), SHORT_ANSWER) {
        return 0;
    }
    let _ = put(answer, Ok(0), &answer_words(finish(load(state))));
    SHORT_ANSWER
}
