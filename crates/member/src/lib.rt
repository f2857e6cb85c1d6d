// The whole member.
#![tactic(auto)]

ghost use Rattle.std.specs.Prelude.{◌≡◌, ◌≤◌, ◌-◌, length, drop, IfErr};
ghost use Rattle.sizes.specs.Sizes.{member_bytes};
ghost use Rattle.grammar.specs.Part.{part_of};
ghost use Rattle.refusals.specs.Numbers.{by_number, number};
ghost use Rattle.refusals.specs.Verdicts.{code, Refuses};
ghost use Rattle.layout.specs.Keeps.{Keeps};
ghost use Rattle.grammar.specs.Laws.Layout.Check.{check};
ghost use Rattle.grammar.specs.Rules.{cells_rule};
ghost use Rattle.table.specs.Laws.Within.{needed};
ghost use Rattle.cells.specs.Laws.Cells.{AllCells, cells_out, cell_record_sizes};
ghost use Rattle.answer.specs.Answer as answer_spec;
ghost use Rattle.answer.specs.Answer.{Delivered};
ghost use Rattle.member.specs.Laws.IntoLists.{into_lists, Stored, LongEnough};
ghost use Rattle.answer.specs.Demand3.{Demand3};
ghost use Rattle.grammar.specs.Laws.Member.Checked.{ended, checked};
ghost use Rattle.opening.specs.Laws.Opening.{Opened};
ghost use Rattle.member.specs.Laws.Whole as whole;

use answer::{Answer, refused};
use axes::{AxesRead, axes};
use cells::{cells as cells_section, most_cell_words};
use index::product_of;
use layout::number::left;
use layout::slice::part as part_of;
use lists::with_lists;
use opening::{ending, opening};
use refusals::{Reason, Refusal, Verdict};
use sizes::{CELL_WORDS, DIMENSION_AREA, MEMBER_BYTES, MOST_PLACES, NODE_WORDS};
use table::{Member, Walk, dimensions, most_node_words};

// What comes after the dimensions: the axes, and how many cells there are; or the refusal.
type Tail = Result<(AxesRead, usize), Refusal>;

// The cells of a table of so many places, and the end.
fn cells_and_end(member: Member, at: usize, places: u32, words: &mut [u32]) -> Walk
    requires { needed cell_record_sizes (length member.bytes.now - at) ≤ length words.old }
    ensures { Keeps member.entry.bytes.now (AllCells member.entry.version at words.old) (ended (check (cells_rule member.entry.version places) (drop at member.entry.bytes.now) at)) (cells_out (by_number result) words.new) }
{
    let (end, n) = cells_section(member.bytes, at, places, words, member.version)?;
    ending(member.bytes, end)?;
    Ok((end, n))
}

// After the dimensions, of which there are d: the product, the axes and the cells.
fn after_dims(
    member: Member,
    at: usize,
    d: usize,
    dims: &[u32; DIMENSION_AREA],
    words: &mut [u32],
) -> Tail
    requires { needed cell_record_sizes (length member.bytes.now - at) ≤ length words.old }
    ensures { whole.TailRead member.entry.version member.entry.bytes.now at d dims.now words.old (by_number result) words.new }
{
    let places = product_of(dims, d);
    if MOST_PLACES < places {
        return Err(Refusal {
            reason: Reason::Limit,
            place: at,
        });
    }
    let axes = axes(member.bytes, at, d)?;
    let (_, n) = cells_and_end(member, axes.end, places as u32, words)?;
    Ok((axes, n))
}

// That part of the member; the empty part if it doesn't lie inside.
pub fn part(member: &[u8], place: usize, length: usize) -> &[u8]
    ensures { result.now ≡ part_of member.now place length }
{
    part_of(member, place, length)
}

// The records into the lent areas, where these are large enough; or the refusal, and nothing is copied.
fn deliver(
    node_records: &[u32],
    cell_records: &[u32],
    nodes: &mut [u32],
    cells: &mut [u32],
) -> Verdict
    ensures filled { whole.Filled node_records.now cell_records.now nodes.old cells.old (code result) nodes.new cells.new }
    ensures reason { IfErr result Refuses }
{
    let node_words = node_records.len();
    let cell_words = cell_records.len();
    if nodes.len() < node_words {
        return Err(Reason::NodeArea);
    }
    if cells.len() < cell_words {
        return Err(Reason::CellArea);
    }
    nodes[..node_words].copy_from_slice(node_records);
    cells[..cell_words].copy_from_slice(cell_records);
    Ok(())
}

// What is answered where reading a member gave a refusal.
fn not_read(refusal: Refusal) -> Answer
    ensures { result ≡ answer_spec.refusal (number refusal.reason) refusal.place 0 0 }
{
    refused(refusal.reason.number(), refusal.place, 0, 0)
}

// Reads a member from its dimensions on, into two lists that are long enough for its records. The answer is made here, and
// no Result with one is handed on: each would have a place of its own on the stack of a small member. `Opened` is data and no proposition, so
// it is a clause, and no ghost field of a struct of the member and the place.
fn read_body(member: Member, at: usize, node_list: &mut [u32], cell_list: &mut [u32]) -> Answer
    requires { LongEnough member.bytes.now at (length node_list.old) (length cell_list.old) × Opened member.bytes.now member.version at }
    ensures { Stored node_list.old cell_list.old (checked member.entry.bytes.now) result node_list.new cell_list.new }
{
    let mut dims = [0u32; DIMENSION_AREA];
    match dimensions(member.bytes, at, node_list, &mut dims, member.version) {
        Err(refusal) => not_read(refusal),
        Ok(section) => match after_dims(member, section.end, section.dimensions, &dims, cell_list) {
            Err(refusal) => not_read(refusal),
            Ok((axes, n)) => {
                let order = axes.order;
                Answer {
                    refusal: 0,
                    place: 0,
                    dims: (section.dimensions % 4294967296) as u32,
                    nodes: (section.nodes % 4294967296) as u32,
                    cells: (n % 4294967296) as u32,
                    dimensions: dims,
                    layers: axes.layers,
                    rows: axes.rows,
                    columns: axes.columns,
                    order,
                }
            }
        },
    }
}

// Reads a member into two lists that are long enough for its records.
fn read_ready(member: &[u8], node_list: &mut [u32], cell_list: &mut [u32]) -> Answer
    requires { LongEnough member.now 0 (length node_list.old) (length cell_list.old) }
    ensures { Stored node_list.old cell_list.old (checked member.now) result node_list.new cell_list.new }
{
    match opening(member) {
        Err(refusal) => not_read(refusal),
        Ok((version, at)) => {
            let bytes = member;
            read_body(Member { bytes, version }, at, node_list, cell_list)
        }
    }
}

// Reads a member into two lists: on acceptance they hold the records, and beyond them what was there; after a refusal they may hold
// anything. Refused besides, before anything is read: a list that is too short for the records which so many bytes can hold, 12 at 0 for
// that of the nodes and 13 at 0 for that of the cells.
pub fn read_into(member: &[u8], node_list: &mut [u32], cell_list: &mut [u32]) -> Answer
    ensures { Stored node_list.old cell_list.old (into_lists member.now (length node_list.old) (length cell_list.old)) result node_list.new cell_list.new }
{
    if MEMBER_BYTES < member.len() {
        return refused(Reason::TooLong.number(), 0, 0, 0);
    }
    if node_list.len() < most_node_words(member.len()) {
        return refused(Reason::NodeArea.number(), 0, 0, 0);
    }
    if cell_list.len() < most_cell_words(member.len()) {
        return refused(Reason::CellArea.number(), 0, 0, 0);
    }
    read_ready(member, node_list, cell_list)
}

// Reads a member from its dimensions on, with two lists that are long enough for its records. The answer stands in one variable: with two
// the compiler has both on the stack of a small member.
fn read_with_lists(
    member: Member,
    at: usize,
    node_list: &mut [u32],
    cell_list: &mut [u32],
    nodes: &mut [u32],
    cells: &mut [u32],
) -> Answer
    requires { LongEnough member.bytes.now at (length node_list.old) (length cell_list.old) × Opened member.bytes.now member.version at }
    ensures { Delivered (checked member.entry.bytes.now) nodes.old cells.old result nodes.new cells.new }
{
    let mut a = read_body(member, at, node_list, cell_list);
    let node_words = NODE_WORDS * a.nodes as usize;
    let cell_words = CELL_WORDS * a.cells as usize;
    if let Err(reason) = deliver(
        &node_list[..node_words],
        &cell_list[..cell_words],
        nodes,
        cells,
    ) {
        a = refused(reason.number(), 0, a.nodes, a.cells);
    }
    a
}

// Reads a member. On a refusal both areas hold what they held; on acceptance the records, and beyond them what was there.
pub fn read_member(member: &[u8], nodes: &mut [u32], cells: &mut [u32]) -> Answer
    ensures checks { Delivered (checked member.now) nodes.old cells.old result nodes.new cells.new }
    ensures demands { Demand3 member.now nodes.old cells.old result nodes.new cells.new }
{
    match opening(member) {
        Err(refusal) => not_read(refusal),
        Ok((version, at)) => {
            let bytes = member;
            let member = Member { bytes, version };
            with_lists(
                left(bytes, at),
                &mut |node_list, cell_list|
                    requires { LongEnough member.bytes.now at (length node_list.old) (length cell_list.old) × Opened member.bytes.now member.version at }
                    ensures { Delivered (checked member.entry.bytes.now) nodes.entry.now cells.entry.now result nodes.exit.now cells.exit.now }
                { read_with_lists(member, at, node_list, cell_list, nodes, cells) },
            )
        }
    }
}
