// Numbers that stand once each, in the 32-bit words of records: leaf indexes, axis entries and cell indexes. Any words get an answer:
// one past the last counts as 0. A number above the most there are (document 01, "Sizes we accept") counts as that.
#![tactic(auto)]

ghost use Rattle.std.specs.Prelude.{◌≡◌, [], None, IfSome, ◌+◌, ◌*◌, ◌≤◌, min, length};
ghost use Rattle.sizes.specs.Sizes.{most_nodes, most_cells, node_words};
ghost use Rattle.sizes.specs.Basics.{among};
ghost use Rattle.grammar.specs.Once.{first_bad};
ghost use Rattle.grammar.specs.RecordWords as spec;
ghost use Rattle.once.specs.Laws.Leaves.{place_of, LeavesAre};

use sizes::{
    LEAF_INDEX, MOST_CELLS, MOST_NODES, NAME_LENGTH, NAME_PLACE, NAME_TO_INDEX, NODE_WORDS,
};

// How many leaves there are, and the place of the first leaf index that is not as it must be, if there is one.
#[derive(Clone, Copy)]
pub struct Leaves {
    pub count: usize,
    pub bad: Option<usize>,
}

// ---- words

pub fn word(ws: &[u32], i: usize) -> u32
    ensures { result ≡ spec.word ws.now i }
{
    ws.get(i).copied().unwrap_or(0)
}

// ---- leaves

// Whether node i is a leaf.
fn is_leaf(nodes: &[u32], i: usize) -> bool
    requires { i ≤ most_nodes + most_nodes }
    ensures { result ≡ spec.is_leaf nodes.now i }
{
    word(nodes, NODE_WORDS * i) == 0
}

// The index of the leaf that node i is.
fn leaf_index(nodes: &[u32], i: usize) -> usize
    requires { i ≤ most_nodes + most_nodes }
    ensures { result ≡ (spec.leaf nodes.now i).0 }
{
    word(nodes, NODE_WORDS * i + LEAF_INDEX) as usize
}

// The place of that index.
fn index_place(nodes: &[u32], i: usize) -> usize
    requires { i ≤ most_nodes + most_nodes }
    ensures { result ≡ (spec.leaf nodes.now i).1 }
{
    let at = NODE_WORDS * i;
    word(nodes, at + NAME_PLACE) as usize + word(nodes, at + NAME_LENGTH) as usize + NAME_TO_INDEX
}

// How many leaves there are among the k nodes from the first on. With `filter` and `count` the test of 4,096 leaves that are out of order
// takes an eighth longer.
fn count_leaves(nodes: &[u32], first: usize, k: usize) -> usize
    requires { (first ≤ most_nodes) × (k ≤ most_nodes) }
    ensures { result ≡ length (spec.leaves nodes.now first k) }
{
    let mut n = 0;
    for i in first..first + k {
        if is_leaf(nodes, i) {
            n += 1;
        }
    }
    n
}

// How many leaves there are among the k nodes from the first on, if their indexes are 0, 1, 2 and so on: then they are as they must be, and
// no marks are needed to tell.
fn in_order(nodes: &[u32], first: usize, k: usize) -> Option<usize>
    requires { (first ≤ most_nodes) × (k ≤ most_nodes) }
    ensures { IfSome result (λ n. LeavesAre (spec.leaves nodes.now first k) n None) }
{
    let mut next = 0;
    for i in first..first + k {
        if is_leaf(nodes, i) {
            if leaf_index(nodes, i) != next {
                return None;
            }
            next += 1;
        }
    }
    Some(next)
}

// The place of the first leaf index among the k nodes from the first on that is not below n or was met before. The mark at x is 1 where
// the index x was met.
fn first_bad(nodes: &[u32], first: usize, k: usize, n: usize) -> Option<usize>
    requires { (first ≤ most_nodes) × (k ≤ most_nodes) }
    ensures { place_of result ≡ first_bad (min n most_nodes) [] (spec.leaves nodes.now first k) }
{
    let end = n.min(MOST_NODES);
    let mut marks = [0u8; MOST_NODES];
    for i in first..first + k {
        if is_leaf(nodes, i) {
            let x = leaf_index(nodes, i);
            if end <= x || marks[x] != 0 {
                return Some(index_place(nodes, i));
            }
            marks[x] = 1;
        }
    }
    None
}

// How many leaves there are among the k nodes from the first on, and whether their indexes are below that number and stand once each.
pub fn check_leaves(nodes: &[u32], first: usize, k: usize) -> Leaves
    ensures { LeavesAre (spec.leaves nodes.now (min first most_nodes) (min k most_nodes)) result.count result.bad }
{
    let first = first.min(MOST_NODES);
    let k = k.min(MOST_NODES);
    if let Some(count) = in_order(nodes, first, k) {
        return Leaves { count, bad: None };
    }
    let count = count_leaves(nodes, first, k);
    Leaves {
        count,
        bad: first_bad(nodes, first, k, count),
    }
}

// ---- axis entries and cell indexes

// Whether x is the first word of one of the first k records of that many words. No record is longer than a node's.
pub fn seen_before(words: &[u32], k: usize, step: usize, x: u64) -> bool
    ensures { result ≡ among x (spec.firsts (min step node_words) words.now (min k most_cells)) }
{
    let step = step.min(NODE_WORDS);
    (0..k.min(MOST_CELLS)).any(|i| u64::from(word(words, step * i)) == x)
}
