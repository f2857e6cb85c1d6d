// Rows of fields of any value, skipped without visiting each: the first that does not fit is found by division.
ghost use Rattle.std.specs.Prelude.{◌≡◌};
ghost use Rattle.grammar.specs.Layout.{any_number, number, times};
ghost use Rattle.grammar.specs.Conventions as grammar;
ghost use Rattle.refusals.specs.Numbers.{by_number};
ghost use Rattle.layout.specs.Reads as spec;
ghost use Rattle.layout.specs.Reads.{Reads, order};
ghost use Rattle.layout.specs.Steps.Rows.{Flat};

use crate::production::Production;
use layout::Step;
use layout::number::{any, field, left, peek};

// A production of which every row of that many bytes is one.
pub trait Row: Production {
    fn size(&self) -> usize
        ensures { Flat (Self.layout self.now) result };
}

// How many of n rows of that size fit.
pub fn fitting(s: &[u8], st: Step, n: u64, size: usize) -> u64
    ensures { result ≡ spec.fitting size n s.now (by_number st) }
{
    let Ok(at) = st else {
        return 0;
    };
    if size == 0 {
        return n;
    }
    n.min((left(s, at) / size) as u64)
}

// Past the rows that fit, of n rows of that size.
pub fn rows(s: &[u8], st: Step, n: u64, size: usize) -> Step
    ensures { by_number result ≡ spec.rows size n s.now (by_number st) }
{
    let at = st?;
    let k = fitting(s, Ok(at), n, size);
    Ok(at + k as usize * size)
}

// n of a row.
pub fn all<R: Row>(s: &[u8], st: Step, row: &R, n: u64) -> Step
    ensures { Reads (times n (R.layout row.now)) s.now st result }
{
    let size = row.size();
    let k = fitting(s, st, n, size);
    let at = rows(s, st, n, size);
    if k == n { at } else { row.read(s, at) }
}

// A count of four bytes and as many of a row.
pub fn counted<R: Row>(s: &[u8], st: Step, high: bool, row: &R) -> Step
    ensures { Reads (number (order high) 4 any_number (λ n. times n (R.layout row.now))) s.now st result }
{
    let n = peek(s, st, high, 4);
    all(s, any(s, st, 4), row, n)
}

// A field of any value, of that many bytes.
#[derive(Clone, Copy)]
struct Field {
    width: usize,
    high: bool,
}

impl Production for Field {
    ghost layout = { λ row. grammar.field (order row.high) row.width any_number };

    fn read(&self, s: &[u8], st: Step) -> Step {
        field(s, st, self.width, Ok(()))
    }
}

impl Row for Field {
    fn size(&self) -> usize {
        self.width
    }
}

// n fields of w bytes of any value.
pub fn fields(s: &[u8], st: Step, high: bool, n: u64, w: usize) -> Step
    ensures { Reads (times n (grammar.field (order high) w any_number)) s.now st result }
{
    all(s, st, &Field { width: w, high }, n)
}

// A count of four bytes and as many fields of w bytes of any value.
pub fn many(s: &[u8], st: Step, high: bool, w: usize) -> Step
    ensures { Reads (number (order high) 4 any_number (λ n. times n (grammar.field (order high) w any_number))) s.now st result }
{
    counted(s, st, high, &Field { width: w, high })
}
