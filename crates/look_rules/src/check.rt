// The walk over a whole look.
ghost use Rattle.std.specs.Prelude.{◌≡◌};
ghost use Rattle.grammar.specs.Layout.{Bytes};
ghost use Rattle.grammar.specs.Laws.Layout.Check.{check};
ghost use Rattle.refusals.specs.Numbers.{by_number};
ghost use Rattle.layout.specs.Reads.{forget};
ghost use Rattle.look_rules.specs.StyleRule.{V2StylesRule, V2StylesIfRule, sections_rule, style_rule};
ghost use Rattle.look_rules.specs.Checks.{Checks};

use crate::areas::text_style;
use crate::borders::{separator_style, separators};
use crate::verdict::past;
use fields::read::name;
use layout::number::{any, field, peek};
use layout::{LITTLE, Step};
use look::areas::cell_style;
use look::read::settings;
use look::section::section;
use store::verdict::known_two;

fn v2_styles(s: &[u8], st: Step) -> Step
    ensures { Checks V2StylesRule s.now st result }
{
    let st = separators(s, st, 11);
    let st = past(name(s, st));
    let st = any(s, st, 4);
    let st = any(s, st, 4);
    let st = any(s, st, 4);
    any(s, st, 4)
}

// V2Styles, which version 02 has.
fn v2_styles_if(s: &[u8], st: Step, new: bool) -> Step
    ensures { Checks (V2StylesIfRule new) s.now st result }
{
    if new { v2_styles(s, st) } else { st }
}

fn sections(s: &[u8], st: Step, new: bool) -> Step
    ensures { Checks (sections_rule (V2StylesIfRule new)) s.now st result }
{
    let st = separator_style(s, st);
    let st = past(cell_style(s, st));
    let st = text_style(s, st);
    v2_styles_if(s, st, new)
}

fn table_look(s: &[u8], st: Step) -> Step
    ensures { Checks style_rule s.now st result }
{
    let st = section(s, st, b"PTTableLook");
    let v = peek(s, st, LITTLE, 1);
    let st = field(s, st, 1, known_two(v, 0, 2));
    let st = past(settings(s, st));
    sections(s, st, v == 2)
}

// Whether a look can become the styles of a member: past its last byte, or a refusal, by its place in the file.
pub fn check_styles(file: &[u8]) -> Step
    ensures { (by_number result ≡ forget (check style_rule file.now 0)) × Bytes file.now }
{
    table_look(file, Ok(0))
}
