// The sections of a member that stand before its dimensions.
#![tactic(auto)]

ghost use Rattle.layout.specs.Reads.{Reads};
ghost use Rattle.grammar.specs.Sections as grammar;

use crate::areas::areas;
use crate::borders::borders;
use crate::footnotes::footnotes;
use crate::formats::formats;
use crate::header::rest;
use crate::print_settings::print_settings;
use crate::table_settings::table_settings;
use crate::titles::titles;
use layout::Step;

pub mod areas;
mod arrays;
pub mod borders;
pub mod footnotes;
pub mod formats;
pub mod header;
mod optional;
pub mod print_settings;
pub mod table_settings;
pub mod titles;

// From the version of the Header to Formats.
pub fn front(s: &[u8], st: Step, version: u64) -> Step
    ensures { Reads (grammar.Front version) s.now st result }
{
    let st = rest(s, st);
    let st = titles(s, st, version);
    let st = footnotes(s, st, version);
    let st = areas(s, st, version);
    let st = borders(s, st);
    let st = print_settings(s, st);
    let st = table_settings(s, st, version);
    formats(s, st, version)
}
