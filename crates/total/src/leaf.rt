// A leaf of an accepted member.
ghost use Rattle.std.specs.Prelude.{◌≡◌};
ghost use Rattle.total.specs.Answers as spec;
ghost use Rattle.total.specs.Laws.Leaf as words;

use crate::LeafTotal;
use crate::accepted::Accepted;
use crate::sums::Sums;
use crate::under::sums_under;
use grid::{grid_of, is_there};
use refusals::Reason;

pub fn refused(n: u32, p: usize, nodes: u32, cells: u32) -> LeafTotal
    ensures { result ≡ spec.refused n p nodes cells }
{
    LeafTotal {
        refusal: n,
        place: p,
        nodes,
        cells,
        total: 0,
        numbers: 0,
        texts: 0,
        missing: 0,
        smallest: 0u32 as f64,
        largest: 0u32 as f64,
    }
}

pub fn answered(nodes: u32, cells: u32, s: Sums) -> LeafTotal
    ensures { result ≡ spec.answered nodes cells s }
{
    match s.bad {
        Some(place) => refused(Reason::NoCount.number(), place as usize, 0, 0),
        None => LeafTotal {
            refusal: 0,
            place: 0,
            nodes,
            cells,
            total: s.total,
            numbers: s.numbers,
            texts: s.texts,
            missing: s.missing,
            smallest: s.smallest as f64,
            largest: s.largest as f64,
        },
    }
}

// The sums under a leaf.
fn leaf_sums(x: Accepted, dimension: u32, leaf: u32) -> Sums
    ensures { result ≡ words.word_sums x.entry.member.now x.entry.answer.now x.entry.cell_list.now dimension leaf }
{
    let g = grid_of(x.member, x.answer, dimension);
    sums_under(x, g, leaf)
}

// What is answered for a leaf of an accepted member.
pub fn leaf_answer(x: Accepted, dimension: u32, leaf: u32) -> LeafTotal
    ensures { result ≡ words.word_answer x.entry.member.now x.entry.answer.now x.entry.cell_list.now dimension leaf }
{
    let a = x.answer;
    if is_there(&a.dimensions, a.dims, dimension, leaf) {
        let s = leaf_sums(x, dimension, leaf);
        answered(a.nodes, a.cells, s)
    } else {
        refused(Reason::NoSuchLeaf.number(), 0, 0, 0)
    }
}
