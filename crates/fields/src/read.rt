// Readers of fields that give their values.
ghost use Rattle.std.specs.Prelude.{◌≡◌, ◌≤◌, ◌-◌, IfOk, length, replicate};
ghost use Rattle.std.specs.Int.{w32};
ghost use Rattle.std.proofs.Common.{SFits};
ghost use Rattle.grammar.specs.Layout.{little, big, the_number, a_color, at_most, any_bytes, string, times, undigits};
ghost use Rattle.grammar.specs.Conventions as grammar;
ghost use Rattle.store.specs.Values.{bit, twos};
ghost use Rattle.store.specs.Fields.{lent};
ghost use Rattle.fields.specs.Gives.{Gives, GivesValue};

use crate::Read;
use layout::number::{any, boolean, field, fixed, left, limit, peek};
use layout::{LITTLE, Step, slice};
use refusals::{Reason, Refusal};
use regions::region::{part, string};
use store::Name;
use store::verdict::high_byte;

// ---- fields without a value

// Each of these is one call of `layout::number::fixed`, at the width of the symbol: one function of any width would say no more.

// The byte b.
pub fn fixed_byte(s: &[u8], st: Step, b: u64) -> Step
    ensures { Gives (grammar.fixed b) s.now st result (b, tt) }
{
    fixed(s, st, LITTLE, 1, b)
}

// The number n, in two bytes.
pub fn int16_of(s: &[u8], st: Step, n: u64) -> Step
    ensures { Gives (grammar.field little 2 (the_number n)) s.now st result (n, tt) }
{
    fixed(s, st, LITTLE, 2, n)
}

// The number n, in four bytes.
pub fn int32_of(s: &[u8], st: Step, n: u64) -> Step
    ensures { Gives (grammar.i n) s.now st result (n, tt) }
{
    fixed(s, st, LITTLE, 4, n)
}

// So many zero bytes. (Where it is called their number is known, and so the loop becomes as many tests: reading a look takes a sixth less time.)
#[inline(always)]
pub fn zeros(s: &[u8], st: Step, n: usize) -> Step
    ensures { Gives (times n (grammar.fixed 0)) s.now st result (replicate n (0, tt)) }
{
    let mut st = st;
    for _ in 0..n {
        st = fixed_byte(s, st, 0);
    }
    st
}

// ---- numbers

// Each of these is one call of `peek` and one of `any`, at the type, the width and the symbol: one function of any type would say no more.

pub fn byte(s: &[u8], st: Step) -> Read<u8>
    ensures { GivesValue grammar.byte (λ v. (v, tt)) s.now st result }
{
    let at = any(s, st, 1)?;
    Ok((peek(s, st, LITTLE, 1) as u8, at))
}

pub fn int16(s: &[u8], st: Step) -> Read<u16>
    ensures { GivesValue grammar.int16 (λ v. (v, tt)) s.now st result }
{
    let at = any(s, st, 2)?;
    Ok((peek(s, st, LITTLE, 2) as u16, at))
}

pub fn int32(s: &[u8], st: Step) -> Read<u32>
    ensures { GivesValue grammar.int32 (λ v. (v, tt)) s.now st result }
{
    let at = any(s, st, 4)?;
    Ok((peek(s, st, LITTLE, 4) as u32, at))
}

// A double, by its bits.
pub fn double(s: &[u8], st: Step) -> Read<u64>
    ensures { GivesValue grammar.double (λ v. (v, tt)) s.now st result }
{
    let at = any(s, st, 8)?;
    Ok((peek(s, st, LITTLE, 8), at))
}

// A byte that is at most n.
pub fn small(s: &[u8], st: Step, n: u64) -> Read<u8>
    ensures { GivesValue (grammar.field little 1 (at_most n)) (λ v. (v, tt)) s.now st result }
{
    let v = peek(s, st, LITTLE, 1);
    let at = field(s, st, 1, limit(v, n))?;
    Ok((v as u8, at))
}

// A color of a look.
pub fn color(s: &[u8], st: Step) -> Read<u32>
    ensures { GivesValue (grammar.field little 4 a_color) (λ v. (v, tt)) s.now st result }
{
    let v = peek(s, st, LITTLE, 4);
    let at = field(s, st, 4, high_byte(v))?;
    Ok((v as u32, at))
}

pub fn flag(s: &[u8], st: Step) -> Read<bool>
    ensures { GivesValue grammar.bool (λ v. (bit v, tt)) s.now st result }
{
    let at = boolean(s, st)?;
    Ok((peek(s, st, LITTLE, 1) == 1, at))
}

// A number in two's complement.
pub fn signed(s: &[u8], st: Step) -> Read<i32>
    ensures gives { GivesValue grammar.int32 (λ v. (twos v, tt)) s.now st result }
    ensures fits { IfOk result (λ x. SFits w32 x.0) }
{
    let (v, at) = int32(s, st)?;
    Ok((v.cast_signed(), at))
}

// ---- letters and strings

// A name: its length in one byte, and as many bytes.
pub fn name(s: &[u8], st: Step) -> Read<Name>
    ensures { GivesValue (string little 1 any_bytes) lent s.now st result }
{
    let (place, end) = part(s, st, LITTLE, 1)?;
    let length = end - place;
    Ok((Name { place, length }, end))
}

// A string without a zero byte: its length in four bytes, and as many bytes.
pub fn text(s: &[u8], st: Step) -> Read<Name>
    ensures { GivesValue grammar.lestring lent s.now st result }
{
    let at = st?;
    let end = string(s, st, LITTLE, 4)?;
    let place = at + 4;
    let length = end - place;
    Ok((Name { place, length }, end))
}

// Letters, as one field.
pub fn letters(s: &[u8], st: Step, text: &[u8]) -> Step
    ensures { Gives (grammar.field big (length text.now) (the_number (undigits big text.now))) s.now st result
        (undigits big text.now, tt) }
{
    let at = st?;
    if text.len() > left(s, at) {
        return Err(Refusal {
            reason: Reason::DoesNotFit,
            place: at,
        });
    }
    if slice::part(s, at, text.len()) == &text[..] {
        return Ok(at + text.len());
    }
    Err(Refusal {
        reason: Reason::FixedDiffers,
        place: at,
    })
}
