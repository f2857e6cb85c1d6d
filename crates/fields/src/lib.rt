// The fields of a layout, by value. Each reader takes a slice and what was read so far, as those of `layout` do, and gives the value of
// the field beside the next position, or a refusal.
#![tactic(auto)]

pub mod read; // readers

use refusals::Refusal;

// What a reader of a value gives: the value and the next position, or a refusal.
pub type Read<T> = Result<(T, usize), Refusal>;
