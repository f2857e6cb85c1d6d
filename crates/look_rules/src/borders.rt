// Separators, by the rule.
ghost use Rattle.std.specs.Prelude.{◌≡◌};
ghost use Rattle.look_rules.specs.StyleRule as spec;
ghost use Rattle.look_rules.specs.StyleRule.{each, listed_border, separator_rule, PVSeparatorStyleRule};
ghost use Rattle.look_rules.specs.Checks.{Checks};

use crate::verdict::told;
use fields::read::fixed_byte;
use layout::Step;
use look::section::section;
use look::{Separator, borders as read};
use refusals::Reason;

// Whether 002 lists a line of this style and width.
fn listed(style: u16, width: u16) -> bool
    ensures { result ≡ spec.listed style width }
{
    match style {
        0 => width <= 3,
        1 => width <= 1,
        _ => style == 2,
    }
}

// A border that isn't drawn has no style.
fn listed_border(x: Separator) -> bool
    ensures { result ≡ listed_border x }
{
    match x {
        Separator::NotDrawn => true,
        Separator::Drawn {
            color: _,
            style,
            width,
        } => listed(style, width),
    }
}

fn separator(s: &[u8], st: Step) -> Step
    ensures { Checks separator_rule s.now st result }
{
    let at = st?;
    let (value, next) = read::separator(s, Ok(at))?;
    told(at, next, listed_border(value), Reason::NoMeaning)
}

// n separators.
pub fn separators(s: &[u8], st: Step, n: usize) -> Step
    ensures { Checks (each {n = n} separator_rule) s.now st result }
{
    let mut st = st;
    for _ in 0..n {
        st = separator(s, st);
    }
    st
}

pub fn separator_style(s: &[u8], st: Step) -> Step
    ensures { Checks PVSeparatorStyleRule s.now st result }
{
    let st = section(s, st, b"PVSeparatorStyle");
    let st = fixed_byte(s, st, 0);
    let st = separators(s, st, 4);
    let st = fixed_byte(s, st, 3);
    let st = fixed_byte(s, st, 0x80);
    let st = fixed_byte(s, st, 0);
    separators(s, st, 4)
}
