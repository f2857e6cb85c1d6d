// Lists that have room for the records of so many bytes, in steps, lent.
#![tactic(auto)]

ghost use Rattle.std.specs.Prelude.{◌≡◌, ◌+◌, ◌^◌, ◌<◌};
ghost use Rattle.lists.specs.Lists as spec;
ghost use Rattle.lists.specs.Lent.{Takes, Lent, TakesFor, LentFor};

use cells::LEAST_CELL;
use sizes::{CELL_AREA, CELL_WORDS, NODE_AREA, NODE_WORDS};
use table::LEAST_CATEGORY;

// The bytes that are read with the lists of each step: these have room for the records that so many bytes hold at most. From the second step
// on a list is about twice as long as the one before, so what is cleared goes with those bytes.
pub const SMALLEST_LISTS: usize = 1024;

pub const SMALL_LISTS: usize = 2560;

pub const MEDIUM_LISTS: usize = 4608;

pub const LARGE_LISTS: usize = 8192;

pub const LARGER_LISTS: usize = 16384;

pub const LARGEST_LISTS: usize = 32768;

// How long the lists of each step are: that of the nodes, and that of the cells.
const SMALLEST_NODES: usize = SMALLEST_LISTS / LEAST_CATEGORY * NODE_WORDS;

const SMALLEST_CELLS: usize = SMALLEST_LISTS / LEAST_CELL * CELL_WORDS;

const SMALL_NODES: usize = SMALL_LISTS / LEAST_CATEGORY * NODE_WORDS;

const SMALL_CELLS: usize = SMALL_LISTS / LEAST_CELL * CELL_WORDS;

const MEDIUM_NODES: usize = MEDIUM_LISTS / LEAST_CATEGORY * NODE_WORDS;

const MEDIUM_CELLS: usize = MEDIUM_LISTS / LEAST_CELL * CELL_WORDS;

const LARGE_NODES: usize = LARGE_LISTS / LEAST_CATEGORY * NODE_WORDS;

const LARGE_CELLS: usize = LARGE_LISTS / LEAST_CELL * CELL_WORDS;

const LARGER_NODES: usize = LARGER_LISTS / LEAST_CATEGORY * NODE_WORDS;

const LARGER_CELLS: usize = LARGER_LISTS / LEAST_CELL * CELL_WORDS;

const LARGEST_NODES: usize = LARGEST_LISTS / LEAST_CATEGORY * NODE_WORDS;

const LARGEST_CELLS: usize = LARGEST_LISTS / LEAST_CELL * CELL_WORDS;

// Whether the lists of a step have room for the records of so many bytes: from the smallest to the largest, and those of every other step.
// A step is a number and no enum: this function is public, and the step after another is one more.
pub fn has_room(step: usize, bytes: usize) -> bool
    ensures { result ≡ spec.has_room step bytes }
{
    match step {
        0 => bytes <= SMALLEST_LISTS,
        1 => bytes <= SMALL_LISTS,
        2 => bytes <= MEDIUM_LISTS,
        3 => bytes <= LARGE_LISTS,
        4 => bytes <= LARGER_LISTS,
        5 => bytes <= LARGEST_LISTS,
        _ => true,
    }
}

// Two lists of zeros of such lengths, lent.
fn lend<const NODES: usize, const CELLS: usize, R, F: FnMut(&mut [u32], &mut [u32]) -> R>(
    work: &mut F,
) -> R
    requires fits { NODES + CELLS < 2 ^ 32 }
    requires takes { Takes F.FnMut work.old NODES CELLS }
    ensures { Lent F.FnMut work.old NODES CELLS result work.new }
{
    let mut node_list = [0u32; NODES];
    let mut cell_list = [0u32; CELLS];
    work(&mut node_list, &mut cell_list)
}

// With the lists of the first step, from that one on, that have room for the records of so many bytes. It calls itself: into such a function
// the compiler puts none that has long lists. So each list stands in the frame of an instance of `lend`, and few bytes are read on a small stack.
fn from_step<R, F: FnMut(&mut [u32], &mut [u32]) -> R>(step: usize, bytes: usize, work: &mut F) -> R
    requires { TakesFor F.FnMut work.old bytes }
    ensures { LentFor F.FnMut work.old bytes result work.new }
{
    if has_room(step, bytes) {
        match step {
            0 => lend::<SMALLEST_NODES, SMALLEST_CELLS, R, F>(work),
            1 => lend::<SMALL_NODES, SMALL_CELLS, R, F>(work),
            2 => lend::<MEDIUM_NODES, MEDIUM_CELLS, R, F>(work),
            3 => lend::<LARGE_NODES, LARGE_CELLS, R, F>(work),
            4 => lend::<LARGER_NODES, LARGER_CELLS, R, F>(work),
            5 => lend::<LARGEST_NODES, LARGEST_CELLS, R, F>(work),
            _ => lend::<NODE_AREA, CELL_AREA, R, F>(work),
        }
    } else {
        from_step(step + 1, bytes, work)
    }
}

// Lends two lists of zeros, one for the records of nodes and one for those of cells, with room for all that so many bytes hold at most.
// It is called once. It is an FnMut and no FnOnce, and lent, so that what it changes is known after the call.
pub fn with_lists<R, F: FnMut(&mut [u32], &mut [u32]) -> R>(bytes: usize, work: &mut F) -> R
    requires { TakesFor F.FnMut work.old bytes }
    ensures { LentFor F.FnMut work.old bytes result work.new }
{
    from_step(0, bytes, work)
}
