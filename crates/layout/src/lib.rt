// Readers of the symbols of a layout. Each takes a slice and what was read so far, and gives what is read then: any bytes and any
// position get an answer, and a refusal is handed on, so a production is read by a straight line of calls.
#![tactic(auto)]

pub mod number; // numbers and their tests
pub mod run; // a run of one byte
pub mod slice; // a part of a slice

use refusals::Refusal;

// What reading a symbol gives: the next position, or a refusal.
pub type Step = Result<usize, Refusal>;

// Where a counted part lies, from its first byte to past its last; or a refusal.
pub type Span = Result<(usize, usize), Refusal>;

// The order of a number's bytes, as the readers take it: lowest first, or highest first.
pub const LITTLE: bool = false;

pub const BIG: bool = true;
