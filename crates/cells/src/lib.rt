// Cells, and their records.
#![tactic(auto)]

use refusals::Refusal;

mod cell; // cells

pub use cell::{cells, most_cell_words};

// The bytes that a cell takes at least.
pub const LEAST_CELL: usize = 9;

// Why a cell was not read: its index is refused, since it is not below the number of places, or is no field that fits; or its Value is.
#[derive(Clone, Copy, Debug, PartialEq, Eq)]
enum CellRefused {
    Index(Refusal),
    Value(Refusal),
}
