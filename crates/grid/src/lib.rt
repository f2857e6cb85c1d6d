// Where the cells under a leaf stand: the places of the dimensions of an accepted member.
#![tactic(auto)]

ghost use Rattle.std.specs.Prelude.{◌≡◌, ◌≤◌};
ghost use Rattle.sizes.specs.Sizes.{most_cells};
ghost use Rattle.grid.specs.Grid as spec;

use answer::Answer;
use index::product_from;
use layout::LITTLE;
use layout::number::peek;
use once::word;
use sizes::{DIMENSION_N, DIMENSION_WORDS, MOST_CELLS};

// How many places the dimensions from dimension i on have.
fn places_from(dims: &[u32], d: usize, i: usize) -> u64
    ensures { result ≡ spec.places_of dims.now d i }
{
    product_from(dims, i, d.saturating_sub(i))
}

// Whether there is such a leaf.
pub fn is_there(dims: &[u32], d: u32, dimension: u32, leaf: u32) -> bool
    ensures { result ≡ spec.there_of dims.now d dimension leaf }
{
    dimension < d && leaf < word(dims, DIMENSION_WORDS * dimension as usize + DIMENSION_N)
}

// What the sums over the cells of a member need: its version, the places of the dimensions from one on and of those after it, and how many
// cells there are.
#[derive(Clone, Copy)]
pub struct Grid {
    pub version: u64,
    pub block: u64,
    pub step: u64,
    pub cells: usize,
}

pub fn grid_of(member: &[u8], a: &Answer, dimension: u32) -> Grid
    ensures { (result ≡ spec.grid_of member.now a.now dimension) × (result.cells ≤ most_cells) }
{
    let d = a.dims as usize;
    let i = dimension as usize;
    let next = i + 1;
    Grid {
        version: peek(member, Ok(2), LITTLE, 4),
        block: places_from(&a.dimensions, d, i),
        step: places_from(&a.dimensions, d, next),
        cells: (a.cells as usize).min(MOST_CELLS),
    }
}
