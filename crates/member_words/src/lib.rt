// The answer of a member as 32-bit words at the front of a lent area.
#![tactic(auto)]

ghost use Rattle.std.specs.Prelude.{◌≡◌, ◌++◌, ◌+◌, length};
ghost use Rattle.sizes.specs.Sizes.{most_dimensions, dimension_area, answer_words};
ghost use Rattle.std.specs.Prelude.{Ok, Err};
ghost use Rattle.store.specs.Puts.{PutsWords};
ghost use Rattle.layout.specs.Words.{word32};
ghost use Rattle.member_words.specs.MemberWords as spec;

use answer::Answer;
use layout::Step;
use member::read_member;
use sizes::{ANSWER_WORDS, DIMENSION_AREA, MOST_DIMENSIONS};
use store::words::put;

// The words of the dimensions and of the axis order.
fn arrays(
    out: &mut [u32],
    st: Step,
    dimensions: [u32; DIMENSION_AREA],
    order: [u32; MOST_DIMENSIONS],
) -> Step
    ensures puts_words { PutsWords (dimensions ++ order) out.old st out.new result }
    ensures order_len { length (dimensions ++ order) ≡ dimension_area + most_dimensions }
{
    let st = put(out, st, &dimensions);
    put(out, st, &order)
}

// The words of what reading a member answers; the place as a word.
pub fn member_words(out: &mut [u32], a: Answer) -> Step
    ensures puts_words { PutsWords (spec.answer_words_of (word32 a.place) a) out.old (Ok 0) out.new result }
    ensures a_len { length (spec.answer_words_of (word32 a.place) a) ≡ answer_words }
{
    let dimensions = a.dimensions;
    let order = a.order;
    let st = put(
        out,
        Ok(0),
        &[
            a.refusal,
            (a.place % 4294967296) as u32,
            a.dims,
            a.nodes,
            a.cells,
            a.layers,
            a.rows,
            a.columns,
        ],
    );
    arrays(out, st, dimensions, order)
}

// Reads a member: see `digarumbi_read_member` of `api`.
pub fn member_answer(
    member: &[u8],
    answer: &mut [u32],
    nodes: &mut [u32],
    cells: &mut [u32],
) -> usize
    ensures { spec.MemberRead member.now answer.old nodes.old cells.old result answer.new nodes.new cells.new }
{
    let short = answer.len() < ANSWER_WORDS;
    if short {
        return 0;
    }
    let a = read_member(member, nodes, cells);
    let _ = member_words(answer, a);
    ANSWER_WORDS
}
