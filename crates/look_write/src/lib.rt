// The writer of binary table looks, of version 02.
#![tactic(auto)]

ghost use Rattle.refusals.specs.Numbers.{by_number};
ghost use Rattle.look_write.specs.Writing as spec;

use layout::Step;
use look::Look;
use look_put::table_look;
use sizes::LONGEST_LOOK;
use store::Written;
use store::deliver::deliver;

// Writes a look whose names lie in `names`. A refusal leaves the output as it was, and the output beyond the look stays.
pub fn write_look(look: Look, names: &[u8], out: &mut [u8]) -> Written
    ensures { spec.Wrote look names.now out.old (by_number result) out.new }
{
    let mut buf = [0u8; LONGEST_LOOK];
    let st = table_look(&mut buf, Ok(0), names, look);
    deliver(&buf, st, out)
}
