// The Areas and Borders sections of a version 3 member, written from styles (document 02, T-12).
#![tactic(auto)]

mod area; // an area's font, colors and margins
mod line; // borders
mod word; // numbers and strings as a member has them

ghost use Rattle.store.specs.Puts.{Puts};
ghost use Rattle.sections_put.specs.Fields as spec;

use crate::area::areas;
use crate::line::borders;
use layout::Step;
use styles::Styles;

// How many bytes the sections have at most, with names of at most 255 bytes.
pub const LONGEST_SECTIONS: usize = 2844;

// Writes the sections of styles whose names lie in `names`.
pub fn sections(buf: &mut [u8], st: Step, names: &[u8], x: Styles) -> Step
    ensures { Puts spec.Sections names.now (spec.fields x) buf.old st buf.new result }
{
    let st = areas(buf, st, names, x.areas);
    borders(buf, st, x.borders)
}
