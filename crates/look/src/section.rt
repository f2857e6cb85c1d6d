// The first bytes of a section.
ghost use Rattle.fields.specs.Gives.{Gives};
ghost use Rattle.look.specs.Look as grammar;
ghost use Rattle.look.specs.Values as values;

use fields::read::{fixed_byte, int16_of, letters};
use layout::Step;

// A class name: its length, and its letters.
fn quoted(s: &[u8], st: Step, text: &[u8]) -> Step
    ensures { Gives (grammar.quoted text.now) s.now st result (values.quoted text.now) }
{
    let n = text.len() as u64;
    let st = int16_of(s, st, n);
    letters(s, st, text)
}

// ff ff 00 00 and a class name.
pub fn section(s: &[u8], st: Step, text: &[u8]) -> Step
    ensures { Gives (grammar.section text.now) s.now st result (values.section text.now) }
{
    let st = fixed_byte(s, st, 0xff);
    let st = fixed_byte(s, st, 0xff);
    let st = fixed_byte(s, st, 0);
    let st = fixed_byte(s, st, 0);
    quoted(s, st, text)
}
