// The Areas and Borders sections of a member of version 3 from a look.
#![tactic(auto)]

ghost use Rattle.refusals.specs.Numbers.{by_number};
ghost use Rattle.sections_put.specs.Names.{Each, Short};
ghost use Rattle.look_sections.specs.Writing as spec;

use look::read::read_look;
use look_rules::check::check_styles;
use sections_put::{LONGEST_SECTIONS, sections};
use store::Written;
use store::deliver::deliver;
use styles::{Styles, styles_of};

// Writes the sections of styles whose names lie in `names`. A refusal leaves the output as it was, and the output beyond the sections stays.
fn write_sections(x: Styles, names: &[u8], out: &mut [u8]) -> Written
    requires { Each Short x.areas }
    ensures { spec.Stored x names.now out.old (by_number result) out.new }
{
    let mut buf = [0u8; LONGEST_SECTIONS];
    let st = sections(&mut buf, Ok(0), names, x);
    deliver(&buf, st, out)
}

// Reads a look and writes its sections. A refusal leaves the output as it was, and the output beyond the sections stays.
pub fn look_sections(file: &[u8], out: &mut [u8]) -> Written
    ensures { spec.Wrote file.now out.old (by_number result) out.new }
{
    let look = read_look(file)?;
    check_styles(file)?;
    write_sections(styles_of(look), file, out)
}
