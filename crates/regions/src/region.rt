// Strings and counted regions: a count, and as many bytes.
ghost use Rattle.std.specs.Prelude.{◌≡◌, ◌+◌, min};
ghost use Rattle.grammar.specs.Layout.{any_number, no_zero, exact, optional, open_ended, number, string, times};
ghost use Rattle.refusals.specs.Numbers.{by_number};
ghost use Rattle.layout.specs.Reads as spec;
ghost use Rattle.regions.specs.Placed as inside;
ghost use Rattle.layout.specs.Reads.{Reads, order};

use crate::production::{Production, counted};
use layout::number::{between, left, peek, width};
use layout::{Span, Step};
use nulls::has_null;
use refusals::{Reason, Refusal};

// Where the bytes lie that a count of w bytes announces.
pub fn part(s: &[u8], st: Step, high: bool, w: usize) -> Span
    ensures { by_number result ≡ spec.part (order high) (min w 8) s.now (by_number st) }
{
    let at = st?;
    let n = peek(s, Ok(at), high, w) as usize;
    let w = width(w);
    let room = left(s, at);
    if w <= room && n <= room - w {
        return Ok((at + w, at + w + n));
    }
    Err(Refusal {
        reason: Reason::DoesNotFit,
        place: at,
    })
}

// The bytes of a part; none where it does not lie inside the slice.
pub fn bytes(s: &[u8], p: Span) -> &[u8]
    ensures { result.now ≡ spec.bytes s.now (by_number p) }
{
    let Ok((b, e)) = p else {
        return &s[..0];
    };
    s.get(b..e).unwrap_or(&s[..0])
}

// A position of a part, in the slice that the part is of.
fn place(b: usize, e: usize, p: usize) -> usize
    ensures { result ≡ min (b + p) e }
{
    b.saturating_add(p).min(e)
}

// What the content of a part gave, in the slice that the part is of.
fn placed(b: usize, e: usize, i: Step) -> Step
    ensures { by_number result ≡ inside.placed b e (by_number i) }
{
    i.map(|p| place(b, e, p)).map_err(|refusal| Refusal {
        place: place(b, e, refusal.place),
        ..refusal
    })
}

// After the content of a region, which fills it. A reader of a region has three lines: its part, its content and one of these. It stays so: by a
// generic function over a production (production.rt), each content would be a struct and an impl of its own, which is longer.
pub fn close(p: Span, i: Step) -> Step
    ensures { by_number result ≡ spec.close exact (by_number p) (by_number i) }
{
    let (b, e) = p?;
    let at = placed(b, e, i)?;
    if at != e {
        return Err(Refusal {
            reason: Reason::RegionNotFilled,
            place: at,
        });
    }
    Ok(at)
}

// After the content of a region that is empty or filled.
pub fn close_optional(p: Span, i: Step) -> Step
    ensures { by_number result ≡ spec.close optional (by_number p) (by_number i) }
{
    let (b, e) = p?;
    if b == e {
        return Ok(e);
    }
    close(Ok((b, e)), i)
}

// After the content of a region that has bytes of any value after it.
pub fn close_open(p: Span, i: Step) -> Step
    ensures { by_number result ≡ spec.close open_ended (by_number p) (by_number i) }
{
    let (b, e) = p?;
    placed(b, e, i)?;
    Ok(e)
}

// Past the bytes of a string, after its length of w bytes, unless one of them is 0.
fn past(s: &[u8], p: Span, w: usize) -> Step
    ensures { by_number result ≡ spec.past no_zero w s.now (by_number p) }
{
    let (b, e) = p?;
    if has_null(bytes(s, Ok((b, e)))) {
        return Err(Refusal {
            reason: Reason::ZeroByte,
            place: between(w, b),
        });
    }
    Ok(e)
}

// A string without a zero byte, its length in w bytes.
pub fn string(s: &[u8], st: Step, high: bool, w: usize) -> Step
    ensures { Reads (string (order high) (min w 8) no_zero) s.now st result }
{
    past(s, part(s, st, high, w), width(w))
}

// Such a string, as a production.
#[derive(Clone, Copy)]
pub struct Text {
    pub high: bool,
    pub width: usize,
}

impl Production for Text {
    ghost layout = { λ text. string (order text.high) (min text.width 8) no_zero };

    fn read(&self, s: &[u8], st: Step) -> Step {
        string(s, st, self.high, self.width)
    }
}

// A count of four bytes and as many strings, their lengths in w bytes.
pub fn many_strings(s: &[u8], st: Step, high: bool, w: usize) -> Step
    ensures { Reads (number (order high) 4 any_number (λ n. times n (string (order high) (min w 8) no_zero))) s.now st result }
{
    counted(s, st, high, &Text { high, width: w })
}

// What nothing has: a limit is passed.
pub fn nothing(st: Step) -> Step
    ensures { by_number result ≡ spec.refused (by_number st) }
{
    Err(Refusal {
        reason: Reason::Limit,
        place: st?,
    })
}
