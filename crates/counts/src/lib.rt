// What a cell counts as (document 02, T-01): which doubles are counts, by their bits.
#![tactic(auto)]

ghost use Rattle.std.specs.Prelude.{◌≡◌, ◌-◌, ◌^◌, ◌≤◌, unwrap_or};
ghost use Rattle.counts.specs.Count as spec;

// What a cell is here.
#[derive(Clone, Copy, Debug, PartialEq, Eq)]
pub enum Kind {
    Text,
    Missing,
    Number(u32),
    Bad,
}

// A double is a sign, the highest of its bits, 11 bits of exponent and 52 of fraction.
const SIGN: u64 = 9223372036854775808;

const FRACTIONS: u64 = 4503599627370496;

// The exponents of the numbers from 1 to below 4,294,967,296.
const LEAST_EXPONENT: u64 = 1023;

const GREATEST_EXPONENT: u64 = 1054;

// Minus the largest finite double.
const MISSING: u64 = 18442240474082181119;

// 2 to the power k.
fn power(k: u64) -> u64
    requires { k ≤ 52 }
    ensures { result ≡ 2 ^ k }
{
    1 << k
}

// The whole number that a double's bits are, if it is one from 0 to 4,294,967,295.
fn count(bits: u64) -> Option<u32>
    ensures { unwrap_or result spec.no_count ≡ spec.count bits }
{
    let magnitude = bits % SIGN;
    if magnitude == 0 {
        return Some(0);
    }
    let e = magnitude / FRACTIONS;
    if SIGN <= bits || e < LEAST_EXPONENT || GREATEST_EXPONENT < e {
        return None;
    }
    let d = power(1075 - e);
    let s = FRACTIONS + bits % FRACTIONS;
    if s % d != 0 {
        return None;
    }
    Some((s / d) as u32)
}

// What a double's bits make of a cell.
fn double_kind(bits: u64) -> Kind
    ensures { result ≡ spec.double_kind bits }
{
    if bits == MISSING {
        return Kind::Missing;
    }
    match count(bits) {
        Some(n) => Kind::Number(n),
        None => Kind::Bad,
    }
}

// What a cell is, by the form of its Value and the bits of its double. The form is a number: there is an answer for every one.
pub fn kind_of(form: u32, bits: u64) -> Kind
    ensures { result ≡ spec.kind form bits }
{
    match form {
        1 | 2 => double_kind(bits),
        _ => Kind::Text,
    }
}
