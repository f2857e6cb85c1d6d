// The readers of a Value. Those of a value, of a template and of its arguments call each other: the depth that is left falls. In a loop the bytes
// that are left fall: each Value and each argument takes a byte or more, and a refusal ends it. So a count costs no more than the bytes that are
// there: the loops' invariants say that their turns and the bytes that are left are together no more than the bytes at the start. The two loops
// stand in that cycle, so they are not calls of regions::production::times: tried, and a call that leads back to this cycle through a trait gets no
// proof.
#![tactic(auto)]

ghost use Rattle.std.specs.Prelude.{◌≡◌};
ghost use Rattle.grammar.specs.Layout.{times};
ghost use Rattle.std.specs.Prelude.{Ok, Err};
ghost use Rattle.layout.specs.Reads.{Reads};
ghost use Rattle.grammar.specs.Value as grammar;

use layout::number::{any, boolean, field, fixed, peek};
use layout::run::past;
use layout::slice::whole;
use layout::{LITTLE, Step};
use refusals::Reason;
use regions::region::{nothing, string};
use sizes::{BELOW_VALUE, VALUE_DEPTH};

mod modifier; // ValueMod

pub use modifier::{modifiers, style_pair, value_mod};

// ---- what follows the first byte of each form

fn form_01(s: &[u8], st: Step, version: u64) -> Step
    ensures { Reads (grammar.Form01 version) s.now st result }
{
    let st = value_mod(s, st, version);
    let st = any(s, st, 4);
    any(s, st, 8)
}

fn form_02(s: &[u8], st: Step, version: u64) -> Step
    ensures { Reads (grammar.Form02 version) s.now st result }
{
    let st = value_mod(s, st, version);
    let st = any(s, st, 4);
    let st = any(s, st, 8);
    let st = string(s, st, LITTLE, 4);
    let st = string(s, st, LITTLE, 4);
    any(s, st, 1)
}

fn form_03(s: &[u8], st: Step, version: u64) -> Step
    ensures { Reads (grammar.Form03 version) s.now st result }
{
    let st = string(s, st, LITTLE, 4);
    let st = value_mod(s, st, version);
    let st = string(s, st, LITTLE, 4);
    let st = string(s, st, LITTLE, 4);
    boolean(s, st)
}

fn form_04(s: &[u8], st: Step, version: u64) -> Step
    ensures { Reads (grammar.Form04 version) s.now st result }
{
    let st = value_mod(s, st, version);
    let st = any(s, st, 4);
    let st = string(s, st, LITTLE, 4);
    let st = string(s, st, LITTLE, 4);
    let st = any(s, st, 1);
    string(s, st, LITTLE, 4)
}

fn form_05(s: &[u8], st: Step, version: u64) -> Step
    ensures { Reads (grammar.Form05 version) s.now st result }
{
    let st = value_mod(s, st, version);
    let st = string(s, st, LITTLE, 4);
    let st = string(s, st, LITTLE, 4);
    any(s, st, 1)
}

fn form_06(s: &[u8], st: Step, version: u64) -> Step
    ensures { Reads (grammar.Form06 version) s.now st result }
{
    let st = string(s, st, LITTLE, 4);
    let st = value_mod(s, st, version);
    let st = string(s, st, LITTLE, 4);
    string(s, st, LITTLE, 4)
}

// ---- a cycle

// A Value without the bytes 00 before it, at a position, in which `depth` levels may be nested.
#[cycle(argument_arguments_arguments_at_raw_value_template_value_at_value_in_values)]
fn raw_value(s: &[u8], at: usize, depth: usize, version: u64) -> Step
    ensures { Reads (grammar.RawValueOf version (grammar.ValueIn version depth)) s.now (Ok at) result }
{
    let st = Ok(at);
    let x = peek(s, st, LITTLE, 1);
    let next = any(s, st, 1);
    match x {
        1 => form_01(s, next, version),
        2 => form_02(s, next, version),
        3 => form_03(s, next, version),
        4 => form_04(s, next, version),
        5 => form_05(s, next, version),
        6 => form_06(s, next, version),
        0x31 => {
            if version == 1 {
                return field(s, st, 1, Err(Reason::Version));
            }
            template(s, modifiers(s, next), depth, version)
        }
        0x58 => template(s, next, depth, version),
        _ => field(s, st, 1, Err(Reason::FixedDiffers)),
    }
}

// A Value at a position, of which `depth` levels may be nested.
#[cycle(argument_arguments_arguments_at_raw_value_template_value_at_value_in_values)]
fn value_at(s: &[u8], at: usize, depth: usize, version: u64) -> Step
    ensures { Reads (grammar.ValueIn version depth) s.now (Ok at) result }
{
    if depth == 0 {
        return nothing(Ok(at));
    }
    raw_value(whole(s), past(s, at, 0, 4), depth - 1, version)
}

// The same after a step.
#[cycle(argument_arguments_arguments_at_raw_value_template_value_at_value_in_values)]
fn value_in(s: &[u8], st: Step, depth: usize, version: u64) -> Step
    ensures { Reads (grammar.ValueIn version depth) s.now st result }
{
    value_at(s, st?, depth, version)
}

#[cycle(argument_arguments_arguments_at_raw_value_template_value_at_value_in_values)]
fn template(s: &[u8], st: Step, depth: usize, version: u64) -> Step
    ensures { Reads (grammar.TemplateOf (grammar.ValueIn version depth)) s.now st result }
{
    let st = string(s, st, LITTLE, 4);
    let n = peek(s, st, LITTLE, 4);
    arguments(s, any(s, st, 4), n, depth, version)
}

// n arguments at a position.
#[cycle(argument_arguments_arguments_at_raw_value_template_value_at_value_in_values)]
fn arguments_at(s: &[u8], at: usize, n: u64, depth: usize, version: u64) -> Step
    ensures { Reads (times n (grammar.Argument version depth)) s.now (Ok at) result }
{
    let mut at = at;
    for _ in 0..n {
        at = argument(s, Ok(at), depth, version)?;
    }
    Ok(at)
}

// The same after a step. Most templates have none.
#[cycle(argument_arguments_arguments_at_raw_value_template_value_at_value_in_values)]
pub fn arguments(s: &[u8], st: Step, n: u64, depth: usize, version: u64) -> Step
    ensures { Reads (times n (grammar.Argument version depth)) s.now st result }
{
    let at = st?;
    if n == 0 {
        return Ok(at);
    }
    arguments_at(whole(s), at, n, depth, version)
}

#[cycle(argument_arguments_arguments_at_raw_value_template_value_at_value_in_values)]
pub fn argument(s: &[u8], st: Step, depth: usize, version: u64) -> Step
    ensures { Reads (grammar.Argument version depth) s.now st result }
{
    let x = peek(s, st, LITTLE, 4);
    let at = any(s, st, 4);
    if x == 0 {
        return value_in(s, at, depth, version);
    }
    values(s, fixed(s, at, LITTLE, 4, 0), x, depth, version)
}

#[cycle(argument_arguments_arguments_at_raw_value_template_value_at_value_in_values)]
fn values(s: &[u8], st: Step, n: u64, depth: usize, version: u64) -> Step
    ensures { Reads (times n (grammar.ValueIn version depth)) s.now st result }
{
    let mut next = st?;
    for _ in 0..n {
        next = value_in(s, Ok(next), depth, version)?;
    }
    Ok(next)
}

// A Value, in a member of that version. The version stays a number, of which any gets an answer (what may not change: the parameter of this function).
pub fn value(s: &[u8], st: Step, version: u64) -> Step
    ensures { Reads (grammar.Value version) s.now st result }
{
    value_in(s, st, VALUE_DEPTH, version)
}

// How many bytes 00 may stand before the Value of a cell.
pub fn cell_zeros(version: u64) -> usize
    ensures { result ≡ grammar.cell_zeros version }
{
    if version == 1 { 5 } else { 4 }
}

// The Value of a cell at a position, with all the bytes 00 before it. Most are numbers.
fn cell_value_at(s: &[u8], at: usize, version: u64) -> Step
    ensures { Reads (grammar.CellValue version) s.now (Ok at) result }
{
    let from = past(s, at, 0, cell_zeros(version));
    let x = peek(s, Ok(from), LITTLE, 1);
    if x == 1 {
        return form_01(s, any(s, Ok(from), 1), version);
    }
    raw_value(whole(s), from, BELOW_VALUE, version)
}

// The same after a step.
pub fn cell_value(s: &[u8], st: Step, version: u64) -> Step
    ensures { Reads (grammar.CellValue version) s.now st result }
{
    cell_value_at(s, st?, version)
}
