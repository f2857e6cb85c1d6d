// Totals under a leaf, as words at the front of a lent area.
ghost use Rattle.total.specs.Calls.{TotalRead, TotalsRead};

use total::answers::{total_words, totals_words};

// The total of the cells under a leaf of a dimension. TOTAL_ANSWER_WORDS, with the answer in as many words at the front of `answer` and the
// records in the two areas where nothing is refused; 0, with nothing read and nothing changed, if `answer` is shorter.
#[unsafe(no_mangle)]
pub extern "C" fn digarumbi_total(
    member: &[u8],
    dimension: u32,
    leaf: u32,
    answer: &mut [u32],
    nodes: &mut [u32],
    cells: &mut [u32],
) -> usize
    ensures { TotalRead member.now answer.old nodes.old cells.old dimension leaf result answer.new nodes.new cells.new }
{
    total_words(member, dimension, leaf, answer, nodes, cells)
}

// The totals of all leaves of a dimension, a row of words for each in `totals`. TOTALS_ANSWER_WORDS, or 0 likewise.
#[unsafe(no_mangle)]
pub extern "C" fn digarumbi_totals(
    member: &[u8],
    dimension: u32,
    answer: &mut [u32],
    totals: &mut [u32],
    nodes: &mut [u32],
    cells: &mut [u32],
) -> usize
    ensures { TotalsRead member.now answer.old totals.old nodes.old cells.old dimension result answer.new totals.new nodes.new cells.new }
{
    totals_words(member, dimension, answer, totals, nodes, cells)
}
