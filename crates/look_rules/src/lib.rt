// Which looks can't become the styles of a member (document 02, T-12): a walk over the file of an accepted look, by the rule of
// specs/StyleRule.antt. Each function takes a slice and what was read so far, as the readers of `layout` do.
#![tactic(auto)]

mod areas; // alignments, fonts and their names
mod borders; // separators
pub mod check; // the whole look
mod verdict; // past a symbol, and one that doesn't pass its test
