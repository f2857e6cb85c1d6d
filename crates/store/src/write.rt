// Writers of fields.
ghost use Rattle.std.specs.Prelude.{◌≡◌, [], ◌∷◌, ◌++◌, ◌+◌, ◌^◌, min, length, leb, ltb, replicate};
ghost use Rattle.grammar.specs.Layout.{little, big, the_number, a_color, at_most, any_bytes, string, times, digits, undigits};
ghost use Rattle.grammar.specs.Conventions as grammar;
ghost use Rattle.refusals.specs.Verdicts.{code};
ghost use Rattle.layout.specs.Reads.{order};
ghost use Rattle.store.specs.Values.{bit, twos};
ghost use Rattle.store.specs.Fields.{lent, letters};
ghost use Rattle.store.specs.Put.{text_verdict};
ghost use Rattle.store.specs.Puts.{Stores, Puts, PutsPlain};

use crate::Name;
use crate::verdict::high_byte;
use layout::number::{limit, unless, width};
use layout::slice::part;
use layout::{LITTLE, Step};
use refusals::{Reason, Refusal, Verdict};

// ---- any field

// Bytes as one field, which gets the refusal of its verdict.
fn raw(buf: &mut [u8], st: Step, text: &[u8], verdict: Verdict) -> Step
    ensures { Stores (code verdict) text.now buf.old st buf.new result }
{
    let at = st?;
    if let Some(reason) = Reason::why(verdict) {
        return Err(Refusal { reason, place: at });
    }
    if at <= buf.len() && text.len() <= buf.len() - at {
        let n = text.len();
        buf[at..at + n].copy_from_slice(text);
        return Ok(at + n);
    }
    let short = Refusal {
        reason: Reason::DoesNotFit,
        place: at,
    };
    Err(short)
}

// A number of w bytes, which gets the refusal of its verdict.
pub fn number(buf: &mut [u8], st: Step, high: bool, w: usize, v: u64, verdict: Verdict) -> Step
    ensures { Stores (code verdict) (digits (order high) (min w 8) v) buf.old st buf.new result }
{
    let w = width(w);
    if high {
        raw(buf, st, &v.to_be_bytes()[8 - w..], verdict)
    } else {
        raw(buf, st, &v.to_le_bytes()[..w], verdict)
    }
}

// Whether w bytes can say a length.
fn says(w: usize, n: usize) -> bool
    ensures { result ≡ ltb n (256 ^ min w 8) }
{
    let w = width(w);
    w == 8 || n < 1 << (8 * w)
}

// Whether so many bytes and then so many lie between a position and the end.
fn fits(end: usize, at: usize, m: usize, n: usize) -> bool
    ensures { result ≡ leb (at + m + n) end }
{
    at <= end && m <= end - at && n <= end - at - m
}

// A length of w bytes and the bytes of a string, as one field, which gets the refusal of its verdict.
fn string_field(
    buf: &mut [u8],
    st: Step,
    high: bool,
    w: usize,
    text: &[u8],
    verdict: Verdict,
) -> Step
    ensures { Stores (code verdict) (digits (order high) (min w 8) (length text.now) ++ text.now) buf.old st buf.new result }
{
    let at = st?;
    if let Some(reason) = Reason::why(verdict) {
        return Err(Refusal { reason, place: at });
    }
    if fits(buf.len(), at, width(w), text.len()) {
        let next = number(buf, st, high, w, text.len() as u64, Ok(()));
        return raw(buf, next, text, Ok(()));
    }
    Err(Refusal {
        reason: Reason::DoesNotFit,
        place: at,
    })
}

// ---- numbers

// Each of these is one call of `number`, at the type and the symbol of a layout that it stores: one function of any type would say no more.

// A byte: any, or this one.
pub fn byte(buf: &mut [u8], st: Step, v: u8) -> Step
    ensures any { PutsPlain grammar.byte (v, tt) buf.old st buf.new result }
    ensures fixed { PutsPlain (grammar.fixed v) (v, tt) buf.old st buf.new result }
{
    number(buf, st, LITTLE, 1, v as u64, Ok(()))
}

// A number of two bytes: any, or this one.
pub fn int16(buf: &mut [u8], st: Step, v: u16) -> Step
    ensures any { PutsPlain grammar.int16 (v, tt) buf.old st buf.new result }
    ensures fixed { PutsPlain (grammar.field little 2 (the_number v)) (v, tt) buf.old st buf.new result }
{
    number(buf, st, LITTLE, 2, v as u64, Ok(()))
}

// A number of four bytes: any, or this one.
pub fn int32(buf: &mut [u8], st: Step, v: u32) -> Step
    ensures any { PutsPlain grammar.int32 (v, tt) buf.old st buf.new result }
    ensures fixed { PutsPlain (grammar.i v) (v, tt) buf.old st buf.new result }
{
    number(buf, st, LITTLE, 4, v as u64, Ok(()))
}

// So many zero bytes.
pub fn zeros(buf: &mut [u8], st: Step, n: usize) -> Step
    ensures { PutsPlain (times n (grammar.fixed 0)) (replicate n (0, tt)) buf.old st buf.new result }
{
    let mut st = st;
    for _ in 0..n {
        st = byte(buf, st, 0);
    }
    st
}

// A byte that is at most n.
pub fn small(buf: &mut [u8], st: Step, v: u8, n: u64) -> Step
    ensures { PutsPlain (grammar.field little 1 (at_most n)) (v, tt) buf.old st buf.new result }
{
    number(buf, st, LITTLE, 1, v as u64, limit(v as u64, n))
}

// A color of a look.
pub fn color(buf: &mut [u8], st: Step, v: u32) -> Step
    ensures { PutsPlain (grammar.field little 4 a_color) (v, tt) buf.old st buf.new result }
{
    number(buf, st, LITTLE, 4, v as u64, high_byte(v as u64))
}

pub fn flag(buf: &mut [u8], st: Step, on: bool) -> Step
    ensures { PutsPlain grammar.bool (bit on, tt) buf.old st buf.new result }
{
    number(buf, st, LITTLE, 1, u64::from(on), Ok(()))
}

// The 32 bits that a number has in two's complement.
pub fn to_bits(z: i32) -> u32
    ensures { result ≡ twos z }
{
    z.cast_unsigned()
}

pub fn signed(buf: &mut [u8], st: Step, v: i32) -> Step
    ensures { PutsPlain grammar.int32 (twos v, tt) buf.old st buf.new result }
{
    int32(buf, st, to_bits(v))
}

// ---- letters and strings

// Letters, as one field without a length.
pub fn plain_letters(buf: &mut [u8], st: Step, text: &[u8]) -> Step
    ensures { PutsPlain (grammar.field big (length text.now) (the_number (undigits big text.now)))
        (undigits big text.now, tt) buf.old st buf.new result }
{
    raw(buf, st, text, Ok(()))
}

// The verdict on a name, for a length of w bytes.
fn name_verdict(names: &[u8], n: Name, w: usize) -> Verdict
    ensures { code result ≡ text_verdict (min w 8) any_bytes names.now (lent n) }
{
    if !says(w, n.length) {
        return Err(Reason::Limit);
    }
    unless(fits(names.len(), n.place, n.length, 0), Reason::DoesNotFit)
}

// A string whose bytes lie in those lent for names.
pub fn name(buf: &mut [u8], st: Step, high: bool, w: usize, names: &[u8], n: Name) -> Step
    ensures { Puts (string (order high) (min w 8) any_bytes) names.now (lent n) buf.old st buf.new result }
{
    let verdict = name_verdict(names, n, w);
    let text = part(names, n.place, n.length);
    string_field(buf, st, high, w, text, verdict)
}

// A string of the writer's own letters.
pub fn text(buf: &mut [u8], st: Step, high: bool, w: usize, text: &[u8]) -> Step
    ensures { PutsPlain (string (order high) (min w 8) any_bytes) (letters text.now) buf.old st buf.new result }
{
    let verdict = unless(says(w, text.len()), Reason::Limit);
    string_field(buf, st, high, w, text, verdict)
}
