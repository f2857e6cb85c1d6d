// ValueMod: modifications of a value.
ghost use Rattle.grammar.specs.Layout.{empty, ◌▸◌};
ghost use Rattle.grammar.specs.Conventions as grammar;
ghost use Rattle.layout.specs.Reads.{Reads};
ghost use Rattle.std.specs.Prelude.{Ok, Err};
ghost use Rattle.grammar.specs.Value as value;

use layout::number::{any, boolean, fixed, one_of_two, one_of_two_but, peek};
use layout::slice::whole;
use layout::{LITTLE, Step};
use regions::production::{Production, optional};
use regions::region::{Text, bytes, close, close_optional, many_strings, part, string};
use regions::rows::many;

#[derive(Clone, Copy)]
struct FontStyle;

impl Production for FontStyle {
    ghost layout = { λ _. value.FontStyle };

    fn read(&self, s: &[u8], st: Step) -> Step {
        let st = boolean(s, st);
        let st = boolean(s, st);
        let st = boolean(s, st);
        let st = boolean(s, st);
        let st = string(s, st, LITTLE, 4);
        let st = string(s, st, LITTLE, 4);
        let st = string(s, st, LITTLE, 4);
        any(s, st, 1)
    }
}

#[derive(Clone, Copy)]
struct CellStyle;

impl Production for CellStyle {
    ghost layout = { λ _. value.CellStyle };

    fn read(&self, s: &[u8], st: Step) -> Step {
        let st = any(s, st, 4);
        let st = any(s, st, 4);
        let st = any(s, st, 8);
        let st = any(s, st, 2);
        let st = any(s, st, 2);
        let st = any(s, st, 2);
        any(s, st, 2)
    }
}

pub fn style_pair(s: &[u8], st: Step) -> Step
    ensures { Reads value.StylePair s.now st result }
{
    optional(s, optional(s, st, &FontStyle), &CellStyle)
}

fn prefix_content(s: &[u8], st: Step) -> Step
    ensures { Reads (grammar.i 0 ▸ grammar.either 0x58 empty 0x31 (grammar.fixed 0x55)) s.now st result }
{
    let st = fixed(s, st, LITTLE, 4, 0);
    let x = peek(s, st, LITTLE, 1);
    let at = one_of_two(s, st, 0x58, 0x31);
    if x == 0x58 {
        at
    } else {
        fixed(s, at, LITTLE, 1, 0x55)
    }
}

fn template_prefix(s: &[u8], st: Step) -> Step
    ensures { Reads value.TemplatePrefix s.now st result }
{
    let p = part(s, st, LITTLE, 4);
    close_optional(p, prefix_content(bytes(s, p), Ok(0)))
}

fn template_content(s: &[u8], st: Step) -> Step
    ensures { Reads (value.TemplatePrefix ▸ grammar.if31 grammar.lestring) s.now st result }
{
    let id = Text {
        high: LITTLE,
        width: 4,
    };
    optional(s, template_prefix(s, st), &id)
}

fn template_string(s: &[u8], st: Step) -> Step
    ensures { Reads value.TemplateString s.now st result }
{
    let p = part(s, st, LITTLE, 4);
    close_optional(p, template_content(bytes(s, p), Ok(0)))
}

fn mod_content(s: &[u8], st: Step) -> Step
    ensures { Reads (value.TemplateString ▸ value.StylePair) s.now st result }
{
    style_pair(s, template_string(s, st))
}

fn mod_region(s: &[u8], st: Step) -> Step
    ensures { Reads (grammar.count (value.TemplateString ▸ value.StylePair)) s.now st result }
{
    let p = part(s, st, LITTLE, 4);
    close(p, mod_content(bytes(s, p), Ok(0)))
}

// What follows the 31 of a ValueMod, at a position.
fn modifiers_at(s: &[u8], at: usize) -> Step
    ensures { Reads value.Modifiers s.now (Ok at) result }
{
    let st = many(s, Ok(at), LITTLE, 2);
    let st = many_strings(s, st, LITTLE, 4);
    mod_region(s, st)
}

// The same after a step.
pub fn modifiers(s: &[u8], st: Step) -> Step
    ensures { Reads value.Modifiers s.now st result }
{
    modifiers_at(whole(s), st?)
}

// Most Values have a 58 alone: that is seen first, and the test of the byte is left out where the compiler knows it.
pub fn value_mod(s: &[u8], st: Step, version: u64) -> Step
    ensures { Reads (value.ValueMod version) s.now st result }
{
    let x = peek(s, st, LITTLE, 1);
    if x == 0x58 {
        return one_of_two_but(s, st, 0x31, 0x58, version == 1);
    }
    let at = one_of_two_but(s, st, 0x31, 0x58, version == 1);
    if x == 0x31 {
        modifiers_at(whole(s), at?)
    } else {
        at
    }
}
