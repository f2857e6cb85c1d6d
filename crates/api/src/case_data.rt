// Compressed case data as it arrives (document 02, T-05). `crates/cases_words/specs/Calls.antt` says what each function gives and what the lent
// areas then hold, `StateWords.antt` beside it which words are a state.
ghost use Rattle.cases_words.specs.Calls.{Started, Fed, Ended};

use cases_words::{end_words, feed_words, start_words};

// Starts a stream, from the kinds of a case's elements and the bias. SHORT_ANSWER, with the refusal or 0 and its place at the front of `answer`;
// unless it is refused, the words of `state` are settled. 0, with nothing changed, if `answer` or `state` is too short.
#[unsafe(no_mangle)]
pub extern "C" fn digarumbi_cases_start(
    kinds: &[u8],
    bias: u32,
    state: &mut [u32],
    answer: &mut [u32],
) -> usize
    ensures { Started kinds.now bias state.old answer.old result state.new answer.new }
{
    start_words(kinds, bias, state, answer)
}

// Feeds bytes, and writes elements at the front of `output`. CALL_ANSWER, with the refusal or 0, its place, the bytes taken and the elements
// written at the front of `answer`. 0, with nothing changed, if `answer` or `state` is too short.
#[unsafe(no_mangle)]
pub extern "C" fn digarumbi_cases_feed(
    state: &mut [u32],
    input: &[u8],
    output: &mut [u8],
    answer: &mut [u32],
) -> usize
    ensures { Fed state.old input.now output.old answer.old result state.new output.new answer.new }
{
    feed_words(state, input, output, answer)
}

// Tells of the end, and changes no state. SHORT_ANSWER, with the refusal or 0 and its place at the front of `answer`; 0, with nothing changed, if
// `answer` or `state` is too short.
#[unsafe(no_mangle)]
pub extern "C" fn digarumbi_cases_end(state: &[u32], answer: &mut [u32]) -> usize
    ensures { Ended state.now answer.old result answer.new }
{
    end_words(state, answer)
}
