// What reading a member answers (document 01, "What the caller gets").
#![tactic(auto)]

ghost use Rattle.std.specs.Prelude.{◌≡◌};
ghost use Rattle.answer.specs.Answer as spec;

use sizes::{DIMENSION_AREA, MOST_DIMENSIONS};

// What reading a member answers. Unused entries are 0. A number and a count stand beside what they say, since `Demand3`, `Delivered` and the
// words for C read these fields.
#[derive(Clone, Copy)]
pub struct Answer {
    // document 01's refusal number, or 0, and its place
    pub refusal: u32,
    pub place: usize,
    // how many dimensions, category nodes and cells there are
    pub dims: u32,
    pub nodes: u32,
    pub cells: u32,
    // for each dimension: the place and length of its name, its n and its first node
    pub dimensions: [u32; DIMENSION_AREA],
    // how many dimensions are on each axis, and the dimension numbers, in the order of the file
    pub layers: u32,
    pub rows: u32,
    pub columns: u32,
    pub order: [u32; MOST_DIMENSIONS],
}

// A refusal, with the counts of nodes and cells.
pub fn refused(refusal: u32, place: usize, nodes: u32, cells: u32) -> Answer
    ensures { result ≡ spec.refusal refusal place nodes cells }
{
    Answer {
        refusal,
        place,
        dims: 0,
        nodes,
        cells,
        dimensions: [0u32; DIMENSION_AREA],
        layers: 0,
        rows: 0,
        columns: 0,
        order: [0u32; MOST_DIMENSIONS],
    }
}
