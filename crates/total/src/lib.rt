// The total of the cells under a leaf (document 02, T-01).
#![tactic(auto)]

mod accepted; // a member that was accepted
mod all; // a call for all leaves of a dimension
pub mod answers; // the answers as words
mod call; // a call for a leaf
mod leaf; // a leaf of an accepted member
mod rows; // all leaves of a dimension, in rows of words
mod sums; // sums over cells
mod under; // the cells under a leaf
mod words; // totals as words

ghost use Rattle.std.specs.Prelude.{length};
ghost use Rattle.member.specs.Laws.IntoLists.{LongEnough};
ghost use Rattle.total.specs.Answers.{Totalled, ByDerivation, AllTotalled, AllByDerivation};

use crate::all::all_into_lists;
use crate::call::leaf_into_lists;
use lists::with_lists;

// What is answered for a leaf: the refusal, or 0, and its place; how many nodes and cells there are; the total of the numbers under the
// leaf, how many numbers, texts and missing ones there are, the smallest number and the largest. All but the first two are 0 after a
// refusal, the counts of nodes and cells not with 12 and 13. It is no Result: `Totalled` and `ByDerivation` speak of these fields, also after a
// refusal, and C gets them as words.
#[derive(Clone, Copy)]
pub struct LeafTotal {
    pub refusal: u32,
    pub place: usize,
    pub nodes: u32,
    pub cells: u32,
    pub total: u64,
    pub numbers: u32,
    pub texts: u32,
    pub missing: u32,
    pub smallest: f64,
    pub largest: f64,
}

// What is answered for all leaves of a dimension: the refusal, or 0, and its place; how many nodes and cells there are, and how many leaves,
// also with 15. It is no Result: `AllTotalled` and `AllByDerivation` speak of these fields, and C gets them as words.
#[derive(Clone, Copy)]
pub struct DimensionTotals {
    pub refusal: u32,
    pub place: usize,
    pub nodes: u32,
    pub cells: u32,
    pub leaves: u32,
}

// The total of the cells under a leaf of a dimension. On a refusal both areas hold what they held; else the records, and beyond them what
// was there.
pub fn total(
    member: &[u8],
    dimension: u32,
    leaf: u32,
    nodes: &mut [u32],
    cells: &mut [u32],
) -> LeafTotal
    ensures answers { Totalled member.now nodes.old cells.old dimension leaf result nodes.new cells.new }
    ensures demands { ByDerivation member.now nodes.old cells.old dimension leaf result nodes.new cells.new }
{
    with_lists(
        member.len(),
        &mut |node_list, cell_list|
            requires { LongEnough member.now 0 (length node_list.old) (length cell_list.old) }
            ensures { Totalled member.entry.now nodes.entry.now cells.entry.now dimension leaf result nodes.exit.now cells.exit.now }
        { leaf_into_lists(member, dimension, leaf, node_list, cell_list, nodes, cells) },
    )
}

// What `total` answers for each leaf of a dimension, in one reading: a row of LEAF_TOTAL_WORDS words for each in `totals`. On a refusal the
// three areas hold what they held.
pub fn totals(
    member: &[u8],
    dimension: u32,
    totals: &mut [u32],
    nodes: &mut [u32],
    cells: &mut [u32],
) -> DimensionTotals
    ensures answers { AllTotalled member.now totals.old nodes.old cells.old dimension result totals.new nodes.new cells.new }
    ensures demands { AllByDerivation member.now totals.old nodes.old cells.old dimension result totals.new nodes.new cells.new }
{
    with_lists(
        member.len(),
        &mut |node_list, cell_list|
            requires { LongEnough member.now 0 (length node_list.old) (length cell_list.old) }
            ensures { AllTotalled member.entry.now totals.entry.now nodes.entry.now cells.entry.now dimension result totals.exit.now nodes.exit.now cells.exit.now }
        {
            all_into_lists(
                member, dimension, node_list, cell_list, totals, nodes, cells,
            )
        },
    )
}
