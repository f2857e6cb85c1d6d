// The answers as words at the front of a lent area.
ghost use Rattle.std.specs.Prelude.{◌≡◌, length};
ghost use Rattle.std.specs.Prelude.{Ok, Err};
ghost use Rattle.store.specs.Puts.{PutsWords};
ghost use Rattle.total.specs.Words as spec;
ghost use Rattle.total.specs.Calls.{TotalRead, TotalsRead};
ghost use Rattle.total.specs.Laws.Doubles.{Numbers};

use crate::words::sum_words;
use crate::{DimensionTotals, LeafTotal, total, totals};
use layout::Step;
use sizes::{TOTAL_ANSWER_WORDS, TOTALS_ANSWER_WORDS};
use store::words::put;

fn answer_words(out: &mut [u32], x: LeafTotal) -> Step
    requires { Numbers x }
    ensures { PutsWords (spec.answer_words_of x) out.old (Ok 0) out.new result }
{
    let st = put(
        out,
        Ok(0),
        &[x.refusal, (x.place % 4294967296) as u32, x.nodes, x.cells],
    );
    sum_words(out, st, x)
}

fn dimension_words(out: &mut [u32], x: DimensionTotals) -> Step
    ensures { PutsWords (spec.dimension_words_of x) out.old (Ok 0) out.new result }
{
    put(
        out,
        Ok(0),
        &[
            x.refusal,
            (x.place % 4294967296) as u32,
            x.nodes,
            x.cells,
            x.leaves,
        ],
    )
}

// The total of the cells under a leaf. TOTAL_ANSWER_WORDS, with the answer in as many words at the front of `answer`; 0, with nothing read
// and nothing changed, if it is shorter.
pub fn total_words(
    member: &[u8],
    dimension: u32,
    leaf: u32,
    answer: &mut [u32],
    nodes: &mut [u32],
    cells: &mut [u32],
) -> usize
    ensures { TotalRead member.now answer.old nodes.old cells.old dimension leaf result answer.new nodes.new cells.new }
{
    if answer.len() < TOTAL_ANSWER_WORDS {
        return 0;
    }
    let x = total(member, dimension, leaf, nodes, cells);
    let _ = answer_words(answer, x);
    TOTAL_ANSWER_WORDS
}

// The same of all leaves of a dimension, with TOTALS_ANSWER_WORDS.
pub fn totals_words(
    member: &[u8],
    dimension: u32,
    answer: &mut [u32],
    rows: &mut [u32],
    nodes: &mut [u32],
    cells: &mut [u32],
) -> usize
    ensures { TotalsRead member.now answer.old rows.old nodes.old cells.old dimension result answer.new rows.new nodes.new cells.new }
{
    if answer.len() < TOTALS_ANSWER_WORDS {
        return 0;
    }
    let x = totals(member, dimension, rows, nodes, cells);
    let _ = dimension_words(answer, x);
    TOTALS_ANSWER_WORDS
}
