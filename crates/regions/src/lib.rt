// Readers of strings, counted regions, repeated productions and rows of fields.
#![tactic(auto)]

pub mod production; // that many of a production, and a count and as many
pub mod region; // strings and counted regions
pub mod rows; // rows of fields, skipped without visiting each
