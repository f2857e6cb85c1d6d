// Numbers with the highest byte first, and strings without zero bytes.
ghost use Rattle.std.specs.Prelude.{◌≡◌};
ghost use Rattle.grammar.specs.Conventions as grammar;
ghost use Rattle.store.specs.Fields.{lent, letters};
ghost use Rattle.store.specs.Puts.{Puts, PutsPlain};
ghost use Rattle.sections_put.specs.Fields as spec;
ghost use Rattle.sections_put.specs.Names as names-spec;

use layout::slice::part;
use layout::{BIG, LITTLE, Step};
use nulls::has_null;
use refusals::Reason;
use store::Name;
use store::write::{name, number, text};
use styles::colors::{blue, green, red};

pub fn be32(buf: &mut [u8], st: Step, v: u32) -> Step
    ensures { PutsPlain grammar.be32 (v, tt) buf.old st buf.new result }
{
    number(buf, st, BIG, 4, v as u64, Ok(()))
}

// Whether a name that 32 bits can say has a zero byte.
fn has_null_byte(names: &[u8], n: Name) -> bool
    ensures { result ≡ names-spec.has_zero names.now n }
{
    n.length < 4294967296 && has_null(part(names, n.place, n.length))
}

// A string whose bytes lie in those lent for names.
pub fn typeface(buf: &mut [u8], st: Step, names: &[u8], n: Name) -> Step
    ensures { Puts grammar.lestring names.now (lent n) buf.old st buf.new result }
{
    if has_null_byte(names, n) {
        return number(buf, st, LITTLE, 4, 0, Err(Reason::ZeroByte));
    }
    name(buf, st, LITTLE, 4, names, n)
}

pub fn empty(buf: &mut [u8], st: Step) -> Step
    ensures { PutsPlain grammar.lestring (letters spec.no_letters) buf.old st buf.new result }
{
    text(buf, st, LITTLE, 4, b"")
}

// ---- colors

fn digit(n: u8) -> u8
    ensures { result ≡ spec.digit (spec.low n) }
{
    let d = n % 16;
    if d < 10 { b'0' + d } else { b'a' - 10 + d }
}

fn hex(color: u32) -> [u8; 7]
    ensures { result ≡ spec.hex color }
{
    let r = red(color);
    let g = green(color);
    let b = blue(color);
    [
        b'#',
        digit(r / 16),
        digit(r),
        digit(g / 16),
        digit(g),
        digit(b / 16),
        digit(b),
    ]
}

// A color of a look, as letters.
pub fn color(buf: &mut [u8], st: Step, c: u32) -> Step
    ensures { PutsPlain grammar.lestring (letters (spec.hex c)) buf.old st buf.new result }
{
    text(buf, st, LITTLE, 4, &hex(c))
}
