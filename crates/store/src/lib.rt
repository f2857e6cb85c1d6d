// Writing by a layout: fields stored in a buffer one after the other, and runs of 32-bit words likewise. Each writer takes a buffer, what was
// written so far and the value of a field; it stores the field there and gives what is written then. A refusal is handed on, and the buffer
// stays as it was before the field that is refused: `specs/Put.antt` says what every buffer then holds.
// The buffer and what was written so far stay two parameters: with a struct that holds the buffer's `&mut` (tried), each contract has to say
// besides that it is still the same buffer, by its ghost name, and as long.
#![tactic(auto)]

pub mod deliver; // a buffer handed over
pub mod region; // the count of a region
pub mod verdict; // tests that only looks have
pub mod words; // runs of words
pub mod write; // fields

use refusals::Refusal;

// What writing answers: how many bytes were written, or a refusal.
pub type Written = Result<usize, Refusal>;

// A name by its place and its length.
#[derive(Clone, Copy)]
pub struct Name {
    pub place: usize,
    pub length: usize,
}
