// The position of a cell and the index of a position, as words at the front of a lent area.
#![tactic(auto)]

ghost use Rattle.std.specs.Prelude.{◌≡◌};
ghost use Rattle.store.specs.Puts.{AtFront};
ghost use Rattle.position.specs.Views.{position_view, index_view};
ghost use Rattle.position_words.specs.Positions as spec;

use position::{Position, index_of, position_of};
use refusals::Reason;
use sizes::{INDEX_ANSWER_WORDS, POSITION_ANSWER_WORDS};

fn position_words(position: Result<Position, Reason>) -> [u32; POSITION_ANSWER_WORDS]
    ensures { result ≡ spec.position_words (position_view position) }
{
    match position {
        Ok(p) => [0, 0, p.layer, p.row, p.column],
        Err(reason) => [reason.number(), 0, 0, 0, 0],
    }
}

fn index_words(index: Result<u32, Reason>) -> [u32; INDEX_ANSWER_WORDS]
    ensures { result ≡ spec.index_words (index_view index) }
{
    match index {
        Ok(k) => [0, 0, k],
        Err(reason) => [reason.number(), 0, 0],
    }
}

// Words at the front of an area, and how many they are; 0, with nothing changed, where it is shorter.
fn put_front<const N: usize>(area: &mut [u32], words: [u32; N]) -> usize
    ensures { AtFront N words.entry area.old result area.new }
{
    if area.len() < N {
        return 0;
    }
    area[..N].copy_from_slice(&words);
    N
}

// The position of the cell with that index: see `digarumbi_position` of `api`. (The area's length is asked for first, so that nothing is computed
// for one that is too short.)
pub fn position_answer(
    ns: &[u32],
    layers: u32,
    rows: u32,
    columns: u32,
    order: &[u32],
    index: u32,
    answer: &mut [u32],
) -> usize
    ensures { spec.PositionGiven ns.now layers rows columns order.now index answer.old result answer.new }
{
    if answer.len() < POSITION_ANSWER_WORDS {
        return 0;
    }
    let position = position_of(ns, layers, rows, columns, order, index);
    put_front(answer, position_words(position))
}

// The index of the cell at that position: see `digarumbi_index` of `api`. (The area's length first, as above.)
pub fn index_answer(
    ns: &[u32],
    layers: u32,
    rows: u32,
    columns: u32,
    order: &[u32],
    layer: u32,
    row: u32,
    column: u32,
    answer: &mut [u32],
) -> usize
    ensures { spec.IndexGiven ns.now layers rows columns order.now layer row column answer.old result answer.new }
{
    if answer.len() < INDEX_ANSWER_WORDS {
        return 0;
    }
    let index = index_of(ns, layers, rows, columns, order, layer, row, column);
    put_front(answer, index_words(index))
}
