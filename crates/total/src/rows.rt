// The sums of all leaves of a dimension in rows of words, one row for each leaf.
ghost use Rattle.std.specs.Prelude.{◌≡◌, [], ◌∷◌, ◌++◌, ◌+◌, ◌*◌, ◌^◌, ◌<◌, ◌≤◌, length, drop};
ghost use Rattle.std.proofs.lemmas.List.Edits.{sets};
ghost use Rattle.sizes.specs.Sizes.{leaf_total_words};
ghost use Rattle.total.specs.Words as spec;
ghost use Rattle.total.specs.Laws.Words as words_spec;
ghost use Rattle.total.specs.Laws.Doubles.{Numbers};
ghost use Rattle.total.specs.Laws.LeafRows as laws;

use crate::LeafTotal;
use crate::accepted::Accepted;
use crate::leaf::answered;
use crate::sums::{Sums, add};
use crate::under::{coordinate, kind_at, no_sums};
use crate::words::bits;
use grid::{Grid, grid_of};
use once::word;
use sizes::{CELL_WORDS, LEAF_TOTAL_WORDS};

// The sums in row j.
fn row(area: &[u32], j: usize) -> Sums
    requires { j < 2 ^ 32 }
    ensures { result ≡ laws.sums_at area.now j }
{
    let at = LEAF_TOTAL_WORDS * j;
    Sums {
        bad: (word(area, at) == 1).then_some(word(area, at + 1)),
        total: word(area, at + 2) as u64 + word(area, at + 3) as u64 * 4294967296,
        numbers: word(area, at + 4),
        texts: word(area, at + 5),
        missing: word(area, at + 6),
        smallest: word(area, at + 7),
        largest: word(area, at + 8),
    }
}

// The words of a row from a position on. They are stored one by one, and are parameters and no array: words that are put together in an
// array first, and copied by several at a time, wait for their own stores.
fn put_row(
    area: &mut [u32],
    at: usize,
    w0: u32,
    w1: u32,
    w2: u32,
    w3: u32,
    w4: u32,
    w5: u32,
    w6: u32,
    w7: u32,
    w8: u32,
    w9: u32,
    w10: u32,
)
    requires { at + leaf_total_words ≤ length area.old }
    ensures { area.new ≡ sets area.old at (w0 ∷ w1 ∷ w2 ∷ w3 ∷ w4 ∷ w5 ∷ w6 ∷ w7 ∷ w8 ∷ w9 ∷ w10 ∷ []) }
{
    area[at] = w0;
    area[at + 1] = w1;
    area[at + 2] = w2;
    area[at + 3] = w3;
    area[at + 4] = w4;
    area[at + 5] = w5;
    area[at + 6] = w6;
    area[at + 7] = w7;
    area[at + 8] = w8;
    area[at + 9] = w9;
    area[at + 10] = w10;
}

// Sums into row j.
fn set_row(area: &mut [u32], j: usize, s: Sums)
    requires { (j < 2 ^ 32) × (leaf_total_words * (j + 1) ≤ length area.old) }
    ensures { area.new ≡ laws.stored area.old j (laws.sum_row s) }
{
    put_row(
        area,
        LEAF_TOTAL_WORDS * j,
        s.bad.is_some() as u32,
        s.bad.unwrap_or(0),
        (s.total % 4294967296) as u32,
        (s.total / 4294967296) as u32,
        s.numbers,
        s.texts,
        s.missing,
        s.smallest,
        s.largest,
        0,
        0,
    );
}

// What is answered for a leaf into row j.
fn answer_row(area: &mut [u32], j: usize, x: LeafTotal)
    requires { Numbers x × (j < 2 ^ 32) × (leaf_total_words * (j + 1) ≤ length area.old) }
    ensures { area.new ≡ laws.stored area.old j (spec.leaf_words x) }
{
    let smallest = bits(x.smallest);
    let largest = bits(x.largest);
    put_row(
        area,
        LEAF_TOTAL_WORDS * j,
        x.refusal,
        (x.place % 4294967296) as u32,
        (x.total % 4294967296) as u32,
        (x.total / 4294967296) as u32,
        x.numbers,
        x.texts,
        x.missing,
        (smallest % 4294967296) as u32,
        (smallest / 4294967296) as u32,
        (largest % 4294967296) as u32,
        (largest / 4294967296) as u32,
    );
}

// Rows of no cell.
fn clear(area: &mut [u32], n: usize)
    requires { (n < 2 ^ 32) × (leaf_total_words * n ≤ length area.old) }
    ensures { area.new ≡ laws.no_sum_words n ++ drop (leaf_total_words * n) area.old }
{
    for j in 0..n {
        set_row(area, j, no_sums());
    }
}

// The cell of record i into the row of its leaf.
fn scatter(
    member: &[u8],
    version: u64,
    words: &[u32],
    i: usize,
    block: u64,
    step: u64,
    n: usize,
    area: &mut [u32],
)
    requires { (i < 2 ^ 32) × (n < 2 ^ 32) × (leaf_total_words * n ≤ length area.old) × laws.Room n area.old }
    ensures { area.new ≡ laws.scattered block step n (words_spec.record_says member.now version words.now i) area.old }
{
    let leaf = coordinate(word(words, CELL_WORDS * i), block, step);
    if leaf < n as u64 {
        let j = leaf as usize;
        let k = kind_at(member, version, words, i);
        let place = word(words, CELL_WORDS * i + 1);
        set_row(area, j, add(k, place, row(area, j)));
    }
}

// The cells of a member into the rows of n leaves, in which nothing was added yet.
fn scatter_all(x: Accepted, g: Grid, n: usize, area: &mut [u32])
    requires { (g.cells ≤ 2 ^ 31) × (n < 2 ^ 32) × (leaf_total_words * n ≤ length area.old) × (area.old ≡ laws.no_sum_words n ++ drop (leaf_total_words * n) area.old) }
    ensures { area.new ≡ laws.all_sums g.block g.step (words_spec.records_say x.entry.member.now g.version x.entry.cell_list.now 0 g.cells) n ++ drop (leaf_total_words * n) area.old }
{
    let member = x.member;
    let words = x.cell_list;
    let Grid {
        version,
        block,
        step,
        cells,
    } = g;
    for i in (0..cells).rev() {
        scatter(member, version, words, i, block, step, n, area);
    }
}

// Sums in rows to what is answered for the leaves.
fn finish(area: &mut [u32], n: usize, nodes: u32, cells: u32)
    requires { (n < 2 ^ 32) × (leaf_total_words * n ≤ length area.old) }
    ensures { area.new ≡ laws.finished nodes cells n area.old }
{
    for j in 0..n {
        let s = row(area, j);
        answer_row(area, j, answered(nodes, cells, s));
    }
}

// What is answered for each of the n leaves of a dimension of an accepted member, a row of words for each.
pub fn fill(x: Accepted, dimension: u32, n: usize, area: &mut [u32])
    requires { (n < 2 ^ 32) × (leaf_total_words * n ≤ length area.old) }
    ensures { area.new ≡ laws.leaf_rows x.entry.member.now x.entry.answer.now x.entry.cell_list.now dimension n ++ drop (leaf_total_words * n) area.old }
{
    let g = grid_of(x.member, x.answer, dimension);
    clear(area, n);
    scatter_all(x, g, n, area);
    finish(area, n, x.answer.nodes, x.answer.cells);
}
