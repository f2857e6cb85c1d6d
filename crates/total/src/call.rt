// A call for a leaf: the member is read into lists, so that the lent areas stay as they are if something is refused.
ghost use Rattle.std.specs.Prelude.{◌≡◌, length};
ghost use Rattle.member.specs.Laws.IntoLists.{LongEnough};
ghost use Rattle.total.specs.Answers.{Totalled};
ghost use Rattle.total.specs.Laws.Reading.{Taken};
ghost use Rattle.total.specs.Laws.Areas as areas;
ghost use Rattle.total.specs.Laws.Call as spec;

use crate::LeafTotal;
use crate::accepted::Accepted;
use crate::leaf::{leaf_answer, refused};
use member::read_into;
use refusals::Reason;
use sizes::{CELL_WORDS, NODE_WORDS};

// The records of an accepted member, over the first words of areas that have room for them.
pub fn copy_records(x: Accepted, nodes: &mut [u32], cells: &mut [u32])
    requires { areas.Fit x.answer.now x.node_list.now x.cell_list.now nodes.old cells.old }
    ensures { areas.Copied x.entry.answer.now x.entry.node_list.now x.entry.cell_list.now nodes.old cells.old nodes.new cells.new }
{
    let node_words = NODE_WORDS * x.answer.nodes as usize;
    let cell_words = CELL_WORDS * x.answer.cells as usize;
    nodes[..node_words].copy_from_slice(&x.node_list[..node_words]);
    cells[..cell_words].copy_from_slice(&x.cell_list[..cell_words]);
}

// What is answered of an accepted member, for lent areas of some lengths.
fn fitting(x: Accepted, dimension: u32, leaf: u32, node_room: usize, cell_room: usize) -> LeafTotal
    ensures { result ≡ spec.fitting x.entry.member.now x.entry.answer.now x.entry.cell_list.now dimension leaf node_room cell_room }
{
    let a = x.answer;
    if node_room < NODE_WORDS * a.nodes as usize {
        return refused(Reason::NodeArea.number(), 0, a.nodes, a.cells);
    }
    if cell_room < CELL_WORDS * a.cells as usize {
        return refused(Reason::CellArea.number(), 0, a.nodes, a.cells);
    }
    leaf_answer(x, dimension, leaf)
}

// The same, with the records into the lent areas where nothing is refused.
fn accepted(
    x: Accepted,
    dimension: u32,
    leaf: u32,
    nodes: &mut [u32],
    cells: &mut [u32],
) -> LeafTotal
    requires { Taken x.member.now x.answer.now x.node_list.now x.cell_list.now }
    ensures { Totalled x.entry.member.now nodes.old cells.old dimension leaf result nodes.new cells.new }
{
    let node_room = nodes.len();
    let cell_room = cells.len();
    let total = fitting(x, dimension, leaf, node_room, cell_room);
    if total.refusal == 0 {
        copy_records(x, nodes, cells);
    }
    total
}

// Reads a member into two lists that are long enough for its records.
pub fn leaf_into_lists(
    member: &[u8],
    dimension: u32,
    leaf: u32,
    node_list: &mut [u32],
    cell_list: &mut [u32],
    nodes: &mut [u32],
    cells: &mut [u32],
) -> LeafTotal
    requires { LongEnough member.now 0 (length node_list.old) (length cell_list.old) }
    ensures { Totalled member.now nodes.old cells.old dimension leaf result nodes.new cells.new }
{
    let a = read_into(member, node_list, cell_list);
    if a.refusal != 0 {
        return refused(a.refusal, a.place, 0, 0);
    }
    let x = Accepted {
        member,
        answer: &a,
        node_list,
        cell_list,
    };
    accepted(x, dimension, leaf, nodes, cells)
}
