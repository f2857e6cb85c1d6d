// The cells of a member, by their records.
ghost use Rattle.std.specs.Prelude.{◌≡◌, ◌+◌, ◌/◌, ◌%◌, ◌^◌, ◌<◌, ◌≤◌};
ghost use Rattle.total.specs.Total as spec;
ghost use Rattle.total.specs.Laws.Words as words_spec;

use crate::accepted::Accepted;
use crate::sums::{Sums, add};
use contents::read_figure;
use counts::{Kind, kind_of};
use grid::Grid;
use index::{quotient, remainder};
use member::part;
use once::word;
use sizes::CELL_WORDS;

// The leaf of a dimension that an index is under, where the dimensions from it on have `block` places and those after it `step`.
pub fn coordinate(index: u32, block: u64, step: u64) -> u64
    ensures { result ≡ index % block / step }
{
    quotient(remainder(u64::from(index), block), step)
}

// Whether it is under that leaf.
fn is_under(index: u32, block: u64, step: u64, leaf: u32) -> bool
    ensures { result ≡ words_spec.under_by block step leaf index }
{
    coordinate(index, block, step) == u64::from(leaf)
}

// What the cell of record i counts as.
pub fn kind_at(member: &[u8], version: u64, words: &[u32], i: usize) -> Kind
    requires { i < 2 ^ 32 }
    ensures { result ≡ words_spec.kind_at member.now version words.now i }
{
    let at = CELL_WORDS * i;
    let place = word(words, at + 1) as usize;
    let n = word(words, at + 2) as usize;
    match read_figure(part(member, place, n), version) {
        Some(x) => kind_of(x.form, x.bits),
        None => Kind::Text,
    }
}

pub fn no_sums() -> Sums
    ensures { result ≡ spec.no_sums }
{
    Sums {
        bad: None,
        total: 0,
        numbers: 0,
        texts: 0,
        missing: 0,
        smallest: 0,
        largest: 0,
    }
}

// The sums of the cells under a leaf. Those of other leaves are not touched: sums that are handed over and back are copied
// for each of them.
pub fn sums_under(x: Accepted, g: Grid, leaf: u32) -> Sums
    requires { g.cells ≤ 2 ^ 31 }
    ensures { result ≡ spec.sums (words_spec.under_by g.block g.step leaf) (words_spec.records_say x.entry.member.now g.version x.entry.cell_list.now 0 g.cells) }
{
    let member = x.member;
    let words = x.cell_list;
    let Grid {
        version,
        block,
        step,
        cells,
    } = g;
    let mut s = no_sums();
    for i in (0..cells).rev() {
        let at = CELL_WORDS * i;
        if is_under(word(words, at), block, step, leaf) {
            let k = kind_at(member, version, words, i);
            s = add(k, word(words, at + 1), s);
        }
    }
    s
}
