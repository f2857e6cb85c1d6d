// What may be there: a Value, and what stands in version 3 alone.
ghost use Rattle.grammar.specs.Conventions as notation;
ghost use Rattle.layout.specs.Reads.{Reads};
ghost use Rattle.grammar.specs.Value as values;

use layout::Step;
use regions::production::{Production, optional};
use value::value;

// A Value, in a member of that version.
#[derive(Clone, Copy)]
struct Value {
    version: u64,
}

impl Production for Value {
    ghost layout = { λ x. values.Value x.version };

    fn read(&self, s: &[u8], st: Step) -> Step {
        value(s, st, self.version)
    }
}

pub fn optional_value(s: &[u8], st: Step, version: u64) -> Step
    ensures { Reads (notation.if31 (values.Value version)) s.now st result }
{
    optional(s, st, &Value { version })
}

pub fn in_version_3<P: Production>(s: &[u8], st: Step, production: &P, version: u64) -> Step
    ensures { Reads (notation.v3 version (P.layout production.now)) s.now st result }
{
    if version == 3 {
        production.read(s, st)
    } else {
        st
    }
}
