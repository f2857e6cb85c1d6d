// The position of a cell and the index of a position, as words at the front of a lent area.
ghost use Rattle.position_words.specs.Positions.{PositionGiven, IndexGiven};

use position_words::{index_answer, position_answer};

// The layer, row and column position of the cell with that index. POSITION_ANSWER_WORDS, with the answer in as many words at the front of
// `answer`; 0, with nothing changed, if it is shorter.
#[unsafe(no_mangle)]
pub extern "C" fn digarumbi_position(
    ns: &[u32],
    layers: u32,
    rows: u32,
    columns: u32,
    order: &[u32],
    index: u32,
    answer: &mut [u32],
) -> usize
    ensures { PositionGiven ns.now layers rows columns order.now index answer.old result answer.new }
{
    position_answer(ns, layers, rows, columns, order, index, answer)
}

// The index of the cell at that position, likewise.
#[unsafe(no_mangle)]
pub extern "C" fn digarumbi_index(
    ns: &[u32],
    layers: u32,
    rows: u32,
    columns: u32,
    order: &[u32],
    layer: u32,
    row: u32,
    column: u32,
    answer: &mut [u32],
) -> usize
    ensures { IndexGiven ns.now layers rows columns order.now layer row column answer.old result answer.new }
{
    index_answer(ns, layers, rows, columns, order, layer, row, column, answer)
}
