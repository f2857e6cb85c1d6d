// A state from words, and the words of a state.
ghost use Rattle.std.specs.Prelude.{◌≡◌, true, ◌++◌, ℕ, Ok, Err, min, ◌+◌, ◌≤◌, ◌<◌, length, drop, get_or, leb};
ghost use Rattle.layout.specs.Words.{word32};
ghost use Rattle.store.specs.Puts.{PutsWords};
ghost use Rattle.cases.specs.Steps.{firsts};
ghost use Rattle.cases_words.specs.StateWords as spec;

use case_state::{Cursor, State};
use layout::Step;
use store::words::put;

// where the kinds begin
const FIRST_KIND: usize = 12;

// A word of an area; 0 where there is none.
fn word(words: &[u32], i: usize) -> u32
    ensures { result ≡ get_or words.now i 0 }
{
    words.get(i).copied().unwrap_or(0)
}

// Two words as one number.
fn joint(low: u32, high: u32) -> u64
    ensures { result ≡ spec.joint low high }
{
    u64::from(low) + 4294967296 * u64::from(high)
}

// A number as a word: its lowest 32 bits.
pub fn low(n: usize) -> u32
    ensures { result ≡ word32 n }
{
    (n % 4294967296) as u32
}

// A word as a byte: one that is no byte becomes 255, which is no kind.
fn narrow(w: u32) -> u8
    ensures { result ≡ min w 255 }
{
    w.min(255) as u8
}

fn kinds_of(words: &[u32]) -> [u8; 256]
    ensures { result ≡ spec.kinds_of words.now }
{
    let mut kinds = [0u8; 256];
    for i in 0..256 {
        kinds[i] = narrow(word(words, FIRST_KIND + i));
    }
    kinds
}

#[tactic(auto, unfolding(crate::specs::StateWords::cursor_of))]
fn cursor_of(words: &[u32]) -> Cursor
    ensures { result ≡ spec.cursor_of words.now }
{
    Cursor {
        at: word(words, 2) as usize,
        taken: word(words, 3),
        phase: word(words, 4),
        place: word(words, 5),
        codes: joint(word(words, 6), word(words, 7)),
        left: word(words, 8) as usize,
        block: joint(word(words, 9), word(words, 10)),
        filled: word(words, 11) as usize,
    }
}

// The state that words stand for.
#[tactic(auto, unfolding(crate::specs::StateWords::state_of))]
pub fn load(words: &[u32]) -> State
    ensures { result ≡ spec.state_of words.now }
{
    State {
        kinds: kinds_of(words),
        count: word(words, 0) as usize,
        bias: word(words, 1),
        cursor: cursor_of(words),
    }
}

// Kinds as words.
fn widened(kinds: &[u8; 256]) -> [u32; 256]
    ensures { result ≡ firsts 256 kinds.now }
{
    let mut words = [0u32; 256];
    for i in 0..256 {
        words[i] = u32::from(kinds[i]);
    }
    words
}

// The words of a state, at the front of an area.
fn put_state(out: &mut [u32], s: State) -> Step
    ensures { PutsWords (spec.state_words_of s) out.old (Ok 0) out.new result }
{
    let c = s.cursor;
    let st = put(
        out,
        Ok(0),
        &[
            low(s.count),
            s.bias,
            low(c.at),
            c.taken,
            c.phase,
            c.place,
            (c.codes % 4294967296) as u32,
            (c.codes / 4294967296) as u32,
            low(c.left),
            (c.block % 4294967296) as u32,
            (c.block / 4294967296) as u32,
            low(c.filled),
        ],
    );
    put(out, st, &widened(&s.kinds))
}

// The same where they fit.
pub fn save(out: &mut [u32], s: State)
    requires { leb 268 (length out.old) ≡ true }
    ensures { out.new ≡ spec.state_words_of s ++ drop 268 out.old }
{
    let _ = put_state(out, s);
}
