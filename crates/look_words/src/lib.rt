// A look as 32-bit words in a lent area.
#![tactic(auto)]

mod areas; // colors and styles
mod borders; // separators
mod words; // runs of words

ghost use Rattle.std.specs.Prelude.{◌≡◌};
ghost use Rattle.sizes.specs.Sizes.{look_answer_words};
ghost use Rattle.grammar.specs.Laws.Layout.Read.{read};
ghost use Rattle.layout.specs.Words.{word32};
ghost use Rattle.look.specs.Look.{TableLook};
ghost use Rattle.look.specs.Answers.{expected};
ghost use Rattle.look_words.specs.LookWords as spec;
ghost use Rattle.look_words.specs.LookWords.{look_words_of};
ghost use Rattle.look_words.specs.FieldWords.{answer_words_of};
ghost use Rattle.store.specs.Puts.{PutsWords, AtFront};

use crate::areas::{area, most_areas};
use crate::borders::{frames, lines};
use crate::words::put;
use layout::Step;
use look::read::read_look;
use look::{Continuation, Look, V2Styles};
use sizes::{LOOK_ANSWER_WORDS, LOOK_WORDS, NO_PLACE};

// A place or a length as a word.
fn word(n: usize) -> u32
    ensures { result ≡ word32 n }
{
    (n % 4294967296) as u32
}

fn continuation_of(out: &mut [u32], st: Step, x: Continuation) -> Step
    ensures { PutsWords (spec.continuation x) out.old st out.new result }
{
    match x {
        Continuation::Default => put(out, st, &[NO_PLACE, 7]),
        Continuation::Stored(n) => put(out, st, &[word(n.place), word(n.length)]),
    }
}

// The six words that follow the borders of version 02.
fn v2_numbers(out: &mut [u32], st: Step, x: V2Styles) -> Step
    ensures { PutsWords (spec.v2_numbers x) out.old st out.new result }
{
    let st = continuation_of(out, st, x.continuation);
    put(
        out,
        st,
        &[
            x.min_col_width,
            x.max_col_width,
            x.min_row_height,
            x.max_row_height,
        ],
    )
}

// The words of a look.
fn whole(out: &mut [u32], st: Step, x: Look) -> Step
    ensures { PutsWords (look_words_of x) out.old st out.new result }
{
    let st = put(
        out,
        st,
        &[
            x.version as u32,
            x.settings.flags as u32,
            x.settings.nested_row_labels as u32,
            x.settings.footnote_marker_subscripts as u32,
        ],
    );
    let st = lines(out, st, x.rows);
    let st = lines(out, st, x.columns);
    let st = area(out, st, x.title);
    let st = most_areas(out, st, x.most_areas);
    let st = frames(out, st, x.v2.frames);
    v2_numbers(out, st, x.v2)
}

// Reads a look and puts its answer at the front of an area: the refusal, 0 if the look is accepted, and its place; then the words of the
// look, all 0 on a refusal. Gives how many words that is; 0, with nothing changed, if the area is shorter.
pub fn look_answer(file: &[u8], area: &mut [u32]) -> usize
    ensures { AtFront look_answer_words (answer_words_of (expected (read TableLook file.now 0))) area.old result area.new }
{
    if area.len() < LOOK_ANSWER_WORDS {
        return 0;
    }
    let _ = match read_look(file) {
        Ok(look) => {
            let st = put(area, Ok(0), &[0, 0]);
            whole(area, st, look)
        }
        Err(refusal) => {
            let st = put(area, Ok(0), &[refusal.reason.number(), word(refusal.place)]);
            put(area, st, &[0u32; LOOK_WORDS])
        }
    };
    LOOK_ANSWER_WORDS
}
