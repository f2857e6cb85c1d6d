// Axes, and what they give.
#![tactic(auto)]

use sizes::MOST_DIMENSIONS;

mod axis; // axis counts and entries

pub use axis::axes;

// What the axes give: the number of layers, rows and columns; the dimension numbers on the axes, in the order of the file, of which unused
// ones are 0; and the next position.
#[derive(Clone, Copy, Debug, PartialEq, Eq)]
pub struct AxesRead {
    pub layers: u32,
    pub rows: u32,
    pub columns: u32,
    pub order: [u32; MOST_DIMENSIONS],
    pub end: usize,
}
