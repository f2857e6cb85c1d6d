// The fields of each form of a Value, read in the order of 003: each form has its own, in its own order, so each function is its line there.
ghost use Rattle.sizes.specs.Sizes.{below_value};
ghost use Rattle.grammar.specs.Layout.{◌▸◌};
ghost use Rattle.refusals.specs.Numbers.{number};
ghost use Rattle.fields.specs.Gives.{ShowsValue};
ghost use Rattle.grammar.specs.Value as grammar;
ghost use Rattle.contents.specs.Contents as spec;

use crate::RawValue;
use fields::Read;
use fields::read::{byte, double, flag, int32, text};
use layout::number::{any, field, peek};
use layout::{LITTLE, Step};
use refusals::Reason;
use sizes::BELOW_VALUE;
use store::Name;
use value::{arguments, modifiers, value_mod};

const NO_NAME: Name = Name {
    place: 0,
    length: 0,
};

// What a form leaves as it is, where it has no such field.
const BLANK: RawValue = RawValue {
    form: 0,
    format: 0,
    bits: 0,
    show: 0,
    fixed: false,
    text: NO_NAME,
    var_name: NO_NAME,
    label: NO_NAME,
    id: NO_NAME,
    c: NO_NAME,
    arguments: 0,
    first_argument: 0,
};

pub fn form_01(s: &[u8], st: Step, version: u64) -> Read<RawValue>
    ensures { ShowsValue (grammar.Form01 version) (spec.said (grammar.Form01 version) (spec.says_01 version)) (λ x. x) s.now st result }
{
    let st = value_mod(s, st, version);
    let (format, at) = int32(s, st)?;
    let (bits, end) = double(s, Ok(at))?;
    let value = RawValue {
        form: 1,
        format,
        bits,
        ..BLANK
    };
    Ok((value, end))
}

pub fn form_02(s: &[u8], st: Step, version: u64) -> Read<RawValue>
    ensures { ShowsValue (grammar.Form02 version) (spec.said (grammar.Form02 version) (spec.says_02 version)) (λ x. x) s.now st result }
{
    let st = value_mod(s, st, version);
    let (format, at) = int32(s, st)?;
    let (bits, at) = double(s, Ok(at))?;
    let (var_name, at) = text(s, Ok(at))?;
    let (label, at) = text(s, Ok(at))?;
    let (show, end) = byte(s, Ok(at))?;
    let value = RawValue {
        form: 2,
        format,
        bits,
        var_name,
        label,
        show,
        ..BLANK
    };
    Ok((value, end))
}

pub fn form_03(s: &[u8], st: Step, version: u64) -> Read<RawValue>
    ensures { ShowsValue (grammar.Form03 version) (spec.said (grammar.Form03 version) (spec.says_03 version)) (λ x. x) s.now st result }
{
    let (local, at) = text(s, st)?;
    let st = value_mod(s, Ok(at), version);
    let (id, at) = text(s, st)?;
    let (c, at) = text(s, Ok(at))?;
    let (fixed, end) = flag(s, Ok(at))?;
    let value = RawValue {
        form: 3,
        fixed,
        text: local,
        id,
        c,
        ..BLANK
    };
    Ok((value, end))
}

pub fn form_04(s: &[u8], st: Step, version: u64) -> Read<RawValue>
    ensures { ShowsValue (grammar.Form04 version) (spec.said (grammar.Form04 version) (spec.says_04 version)) (λ x. x) s.now st result }
{
    let st = value_mod(s, st, version);
    let (format, at) = int32(s, st)?;
    let (label, at) = text(s, Ok(at))?;
    let (var_name, at) = text(s, Ok(at))?;
    let (show, at) = byte(s, Ok(at))?;
    let (string, end) = text(s, Ok(at))?;
    let value = RawValue {
        form: 4,
        format,
        show,
        text: string,
        var_name,
        label,
        ..BLANK
    };
    Ok((value, end))
}

pub fn form_05(s: &[u8], st: Step, version: u64) -> Read<RawValue>
    ensures { ShowsValue (grammar.Form05 version) (spec.said (grammar.Form05 version) (spec.says_05 version)) (λ x. x) s.now st result }
{
    let st = value_mod(s, st, version);
    let (var_name, at) = text(s, st)?;
    let (label, at) = text(s, Ok(at))?;
    let (show, end) = byte(s, Ok(at))?;
    let value = RawValue {
        form: 5,
        show,
        var_name,
        label,
        ..BLANK
    };
    Ok((value, end))
}

pub fn form_06(s: &[u8], st: Step, version: u64) -> Read<RawValue>
    ensures { ShowsValue (grammar.Form06 version) (spec.said (grammar.Form06 version) (spec.says_06 version)) (λ x. x) s.now st result }
{
    let (local, at) = text(s, st)?;
    let st = value_mod(s, Ok(at), version);
    let (id, at) = text(s, st)?;
    let (c, end) = text(s, Ok(at))?;
    let value = RawValue {
        form: 6,
        text: local,
        id,
        c,
        ..BLANK
    };
    Ok((value, end))
}

// What follows the first byte of a template, and its ValueMod.
pub fn template(s: &[u8], st: Step, version: u64) -> Read<RawValue>
    ensures { ShowsValue (spec.Template version) (spec.said (spec.Template version) (spec.says_58 (grammar.ValueIn version below_value))) (λ x. x) s.now st result }
{
    let (template, at) = text(s, st)?;
    let n = peek(s, Ok(at), LITTLE, 4);
    let first_argument = any(s, Ok(at), 4)?;
    let end = arguments(s, Ok(first_argument), n, BELOW_VALUE, version)?;
    let value = RawValue {
        form: 7,
        text: template,
        arguments: n as u32,
        first_argument,
        ..BLANK
    };
    Ok((value, end))
}

// A first byte that no form begins with.
fn no_form(s: &[u8], st: Step, reason: Reason) -> Read<RawValue>
    ensures { spec.NoForm (number reason) s.now st result }
{
    let end = field(s, st, 1, Err(reason))?;
    Ok((BLANK, end))
}

// A Value without the bytes 00 before it, by its first byte.
pub fn raw_value(s: &[u8], st: Step, version: u64) -> Read<RawValue>
    ensures { ShowsValue (spec.Raw version) (spec.said (spec.Raw version) (spec.raw_says version (grammar.ValueIn version below_value))) (λ x. x) s.now st result }
{
    let x = peek(s, st, LITTLE, 1);
    let at = any(s, st, 1);
    match x {
        1 => form_01(s, at, version),
        2 => form_02(s, at, version),
        3 => form_03(s, at, version),
        4 => form_04(s, at, version),
        5 => form_05(s, at, version),
        6 => form_06(s, at, version),
        0x31 if version == 1 => no_form(s, st, Reason::Version),
        0x31 => template(s, modifiers(s, at), version),
        0x58 => template(s, at, version),
        _ => no_form(s, st, Reason::FixedDiffers),
    }
}
