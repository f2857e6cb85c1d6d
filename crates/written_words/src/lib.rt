// What was written, as three 32-bit words at the front of a lent area: a look again, the sections of a look, and text in another encoding.
#![tactic(auto)]

pub mod text; // text in old code pages

ghost use Rattle.std.specs.Prelude.{[], ◌∷◌, ◌≤◌, length};
ghost use Rattle.std.specs.Prelude.{Ok, Err};
ghost use Rattle.refusals.specs.Numbers.{by_number};
ghost use Rattle.sizes.specs.Sizes.{write_answer_words};
ghost use Rattle.layout.specs.Words.{word32};
ghost use Rattle.store.specs.Puts.{PutsWords, AtFront};
ghost use Rattle.written_words.specs.Encodings.{answer_words};
ghost use Rattle.written_words.specs.Looks.{Rewrote, Rewritten};
ghost use Rattle.written_words.specs.Sections.{Sectioned};

use layout::Step;
use look::Answer;
use look::read::read_look;
use look_sections::look_sections;
use look_write::write_look;
use sizes::WRITE_ANSWER_WORDS;
use store::Written;
use store::words::put;

// Three words: the refusal, or 0, its place, and the length.
fn step_words(out: &mut [u32], refusal: u32, place: usize, length: usize) -> Step
    ensures { PutsWords (refusal ∷ word32 place ∷ word32 length ∷ []) out.old (Ok 0) out.new result }
{
    put(
        out,
        Ok(0),
        &[
            refusal,
            (place % 4294967296) as u32,
            (length % 4294967296) as u32,
        ],
    )
}

// The three words of what was written, and how many they are.
fn answer_words(answer: &mut [u32], written: Written) -> usize
    requires { write_answer_words ≤ length answer.old }
    ensures { AtFront write_answer_words (answer_words (by_number written)) answer.old result answer.new }
{
    let _ = match written {
        Ok(length) => step_words(answer, 0, 0, length),
        Err(refusal) => step_words(answer, refusal.reason.number(), refusal.place, 0),
    };
    WRITE_ANSWER_WORDS
}

// Writes a look that was read; a refusal of the reader is handed on.
fn write_again(look: Answer, file: &[u8], out: &mut [u8]) -> Written
    ensures { Rewrote (by_number look) file.now out.old (by_number result) out.new }
{
    write_look(look?, file, out)
}

// Reads a look and writes it again: see `digarumbi_rewrite_look` of `api`.
pub fn rewrite_answer(file: &[u8], out: &mut [u8], answer: &mut [u32]) -> usize
    ensures { Rewritten file.now out.old answer.old result out.new answer.new }
{
    // read before the area is tested: of a shorter one too `Rewritten` says what reading the file answers
    let got = read_look(file);
    let room = WRITE_ANSWER_WORDS <= answer.len();
    if room {
        answer_words(answer, write_again(got, file, out))
    } else {
        0
    }
}

// Writes the sections of a look: see `digarumbi_look_sections` of `api`.
pub fn sections_answer(file: &[u8], out: &mut [u8], answer: &mut [u32]) -> usize
    ensures { Sectioned file.now out.old answer.old result out.new answer.new }
{
    let asked = WRITE_ANSWER_WORDS <= answer.len();
    if asked {
        answer_words(answer, look_sections(file, out))
    } else {
        0
    }
}
