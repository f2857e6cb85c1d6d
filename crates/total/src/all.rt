// A call for all leaves of a dimension, over the lists of a member that was read.
ghost use Rattle.std.specs.Prelude.{◌≡◌, length};
ghost use Rattle.member.specs.Laws.IntoLists.{LongEnough};
ghost use Rattle.total.specs.Answers as spec;
ghost use Rattle.total.specs.Answers.{AllTotalled};
ghost use Rattle.total.specs.Laws.Reading.{Taken};
ghost use Rattle.total.specs.Laws.AllCall as laws;

use crate::DimensionTotals;
use crate::accepted::Accepted;
use crate::call::copy_records;
use crate::rows::fill;
use answer::Answer;
use member::read_into;
use once::word;
use refusals::Reason;
use sizes::{CELL_WORDS, DIMENSION_N, DIMENSION_WORDS, LEAF_TOTAL_WORDS, NODE_WORDS};

pub fn refused_all(n: u32, p: usize, nodes: u32, cells: u32, leaves: u32) -> DimensionTotals
    ensures { result ≡ spec.refused_all_answer n p nodes cells leaves }
{
    DimensionTotals {
        refusal: n,
        place: p,
        nodes,
        cells,
        leaves,
    }
}

// A dimension of an accepted member, for so many words of totals.
fn dimension_answer(a: &Answer, dimension: u32, room: usize) -> DimensionTotals
    ensures { result ≡ laws.dimension_of a.now dimension room }
{
    if a.dims <= dimension {
        return refused_all(Reason::NoSuchLeaf.number(), 0, 0, 0, 0);
    }
    let n = word(
        &a.dimensions,
        DIMENSION_WORDS * dimension as usize + DIMENSION_N,
    );
    if room < LEAF_TOTAL_WORDS * n as usize {
        return refused_all(Reason::OutputTooShort.number(), 0, 0, 0, n);
    }
    refused_all(0, 0, a.nodes, a.cells, n)
}

// What is answered of an accepted member, for lent areas of some lengths.
fn fitting_all(
    a: &Answer,
    dimension: u32,
    room: usize,
    node_room: usize,
    cell_room: usize,
) -> DimensionTotals
    ensures { result ≡ laws.fitting_all a.now dimension room node_room cell_room }
{
    if node_room < NODE_WORDS * a.nodes as usize {
        return refused_all(Reason::NodeArea.number(), 0, a.nodes, a.cells, 0);
    }
    if cell_room < CELL_WORDS * a.cells as usize {
        return refused_all(Reason::CellArea.number(), 0, a.nodes, a.cells, 0);
    }
    dimension_answer(a, dimension, room)
}

// The same, with the totals and the records into the lent areas where nothing is refused.
fn accepted_all(
    x: Accepted,
    dimension: u32,
    totals: &mut [u32],
    nodes: &mut [u32],
    cells: &mut [u32],
) -> DimensionTotals
    requires { Taken x.member.now x.answer.now x.node_list.now x.cell_list.now }
    ensures { AllTotalled x.entry.member.now totals.old nodes.old cells.old dimension result totals.new nodes.new cells.new }
{
    let room = totals.len();
    let node_room = nodes.len();
    let cell_room = cells.len();
    let all = fitting_all(x.answer, dimension, room, node_room, cell_room);
    if all.refusal == 0 {
        fill(x, dimension, all.leaves as usize, totals);
        copy_records(x, nodes, cells);
    }
    all
}

// Reads a member into two lists that are long enough for its records.
pub fn all_into_lists(
    member: &[u8],
    dimension: u32,
    node_list: &mut [u32],
    cell_list: &mut [u32],
    totals: &mut [u32],
    nodes: &mut [u32],
    cells: &mut [u32],
) -> DimensionTotals
    requires { LongEnough member.now 0 (length node_list.old) (length cell_list.old) }
    ensures { AllTotalled member.now totals.old nodes.old cells.old dimension result totals.new nodes.new cells.new }
{
    let a = read_into(member, node_list, cell_list);
    if a.refusal != 0 {
        return refused_all(a.refusal, a.place, 0, 0, 0);
    }
    let x = Accepted {
        member,
        answer: &a,
        node_list,
        cell_list,
    };
    accepted_all(x, dimension, totals, nodes, cells)
}
