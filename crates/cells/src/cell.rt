// Cells: an index inside the table, once, and a Value. They are read first, and then looked through for the first index that stands
// again: the first refusal in file order is given all the same.
ghost use Rattle.std.specs.Prelude.{◌≡◌, length, drop, ◌<◌, ◌≤◌, ◌-◌};
ghost use Rattle.sizes.specs.Sizes.{most_cells};
ghost use Rattle.refusals.specs.Numbers.{by_number};
ghost use Rattle.grammar.specs.Laws.Layout.Check.{check};
ghost use Rattle.layout.specs.Keeps.{Keeps};
ghost use Rattle.grammar.specs.Rules.{cells_rule};
ghost use Rattle.table.specs.Laws.Within.{Room, Scratch, needed, within};
ghost use Rattle.cells.specs.CellRead.{value_read, cell_read};
ghost use Rattle.cells.specs.Laws.Reading.{Placed, Tested};
ghost use Rattle.cells.specs.Laws.Cells as spec;

use crate::{CellRefused, LEAST_CELL};
use layout::number::{any, count, left, peek};
use layout::{LITTLE, Step};
use once::word;
use refusals::{Reason, Refusal};
use repeats::first_repeat;
use sizes::{CELL_WORDS, MEMBER_BYTES, MOST_CELLS};
use table::{Member, Walk, length, put};
use value::cell_value;

const LIMIT: u64 = MOST_CELLS as u64;

// The bytes of an index, which stand before the Value.
const INDEX_BYTES: usize = 8;

// The Value of cell j, whose index is x, and its record. Where the Value is refused, the record has the index and the place.
fn record(member: Member, at: usize, j: usize, x: u64, cells: &mut [u32]) -> Step
    requires { j < most_cells }
    ensures { spec.Recorded member.entry.version member.entry.bytes.now at j x cells.old (value_read (by_number result)) cells.new }
{
    let end = cell_value(member.bytes, Ok(at), member.version);
    let size = match end {
        Ok(e) => length(at, e),
        Err(_) => 0,
    };
    put(
        cells,
        CELL_WORDS * j,
        &[(x % 4294967296) as u32, (at % 4294967296) as u32, size],
    );
    end
}

// Cell j, with no look at the indexes before it. Its record is stored once the index is read, before the byte or more of its Value, so the
// room counts from the byte before the cell on.
fn cell(
    member: Member,
    at: usize,
    places: u32,
    j: usize,
    cells: &mut [u32],
) -> Result<usize, CellRefused>
    requires { (j < most_cells) × (0 < at) × Room spec.cell_record_sizes (length cells.old) j (at - 1) member.bytes.now }
    ensures { spec.CellDone member.entry.version member.entry.bytes.now at places j cells.old (cell_read result) cells.new }
{
    let s = member.bytes;
    let x = peek(s, Ok(at), LITTLE, INDEX_BYTES);
    let place = any(s, Ok(at), INDEX_BYTES).map_err(CellRefused::Index)?;
    if places as u64 <= x {
        return Err(CellRefused::Index(Refusal {
            reason: Reason::CellIndex,
            place: at,
        }));
    }
    record(member, place, j, x, cells).map_err(CellRefused::Value)
}

// `end`, where the indexes of the first m cells stand once each; else the refusal of the first that repeats an earlier one.
fn once_each(cells: &[u32], m: usize, end: Step) -> Step
    requires { (m ≤ most_cells) × Placed cells.now m }
    ensures { Tested cells.now m (by_number end) (by_number result) }
{
    let repeat = first_repeat(cells, CELL_WORDS, m);
    if repeat.at < m {
        let value = word(cells, CELL_WORDS * repeat.at + 1) as usize;
        return Err(Refusal {
            reason: Reason::CellIndex,
            place: value - INDEX_BYTES,
        });
    }
    end
}

// n cells, in a table of so many places. Where reading stops, a repeat among the indexes read until then comes first.
fn all(member: Member, at: usize, places: u32, n: usize, words: &mut [u32]) -> Step
    requires { (n ≤ most_cells) × (0 < at) × Room spec.cell_record_sizes (length words.old) 0 (at - 1) member.bytes.now }
    ensures { spec.AllRead member.entry.version member.entry.bytes.now at places n words.old (by_number result) words.new }
{
    let mut at = at;
    for j in 0..n {
        match cell(member, at, places, j, words) {
            Ok(next) => at = next,
            Err(CellRefused::Index(refusal)) => return once_each(words, j, Err(refusal)),
            Err(CellRefused::Value(refusal)) => return once_each(words, j + 1, Err(refusal)),
        }
    }
    once_each(words, n, Ok(at))
}

// The section, with room for its records.
fn section(member: Member, at: usize, places: u32, words: &mut [u32]) -> Walk
    requires { Room spec.cell_record_sizes (length words.old) 0 at member.bytes.now }
    ensures { Keeps member.entry.bytes.now (spec.AllCells member.entry.version at words.old) (check (cells_rule member.entry.version places) (drop at member.entry.bytes.now) at) (spec.cells_out (by_number result) words.new) }
{
    let n = peek(member.bytes, Ok(at), LITTLE, 4);
    let first = count(member.bytes, Ok(at), LIMIT)?;
    let end = all(member, first, places, n as usize, words)?;
    Ok((end, n as usize))
}

// How many words the cell records of n bytes have at most.
pub fn most_cell_words(n: usize) -> usize
    ensures { result ≡ needed spec.cell_record_sizes n }
{
    CELL_WORDS * (n / LEAST_CELL).min(MOST_CELLS)
}

// The number of cells at a position, and the cells of a table of so many places: where they end, and how many they are. Refused besides:
// more bytes than a member has, 1 at 0; a list that is too short for the cell records of the bytes from there on, 13 at 0. The words are
// scratch: after a refusal they may hold anything.
pub fn cells(s: &[u8], at: usize, places: u32, words: &mut [u32], version: u64) -> Walk
    ensures cells { Keeps s.now (spec.AllCells version at words.old) (within spec.cell_record_sizes s.now at (length words.old) (check (cells_rule version places) (drop at s.now) at)) (spec.cells_out (by_number result) words.new) }
    ensures scratch { Scratch words.old words.new }
{
    if MEMBER_BYTES < s.len() {
        return Err(Refusal {
            reason: Reason::TooLong,
            place: 0,
        });
    }
    if words.len() < most_cell_words(left(s, at)) {
        return Err(Refusal {
            reason: Reason::CellArea,
            place: 0,
        });
    }
    section(Member { bytes: s, version }, at, places, words)
}
