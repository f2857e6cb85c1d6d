// A text and a number at a place of a buffer; each gives the place after it.
ghost use Rattle.std.specs.Prelude.{◌+◌, ◌≤◌, ◌++◌, ◌∷◌, length};
ghost use Rattle.report.specs.Text.{Puts, decimal};

pub(crate) fn put(out: &mut [u8], at: usize, s: &[u8]) -> usize
    requires { at + length s.now ≤ length out.old }
    ensures { Puts s.now out.old at out.new result }
{
    let n = s.len();
    out[at..at + n].copy_from_slice(s);
    at + n
}

pub(crate) fn number(out: &mut [u8], at: usize, n: u64) -> usize
    requires { at + length (decimal n) ≤ length out.old }
    ensures { Puts (decimal n) out.old at out.new result }
{
    let mut digits = [0u8; 20];
    let k = io::decimal(n, &mut digits);
    put(out, at, &digits[..k])
}

// A number of at most ten digits, and a text after it.
pub(crate) fn counted(out: &mut [u8], at: usize, n: u32, s: &[u8]) -> usize
    requires { at + 10 + length s.now ≤ length out.old }
    ensures puts { Puts (decimal n ++ s.now) out.old at out.new result }
    ensures upper_bound { result ≤ at + 10 + length s.now }
{
    let at = number(out, at, n as u64);
    put(out, at, s)
}

// A space and a number.
pub(crate) fn spaced(out: &mut [u8], at: usize, n: u32) -> usize
    requires { at + 11 ≤ length out.old }
    ensures puts { Puts (32 ∷ decimal n) out.old at out.new result }
    ensures upper_bound { result ≤ at + 11 }
{
    let at = put(out, at, b" ");
    number(out, at, n as u64)
}
