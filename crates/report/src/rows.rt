// Rows of words, one to a line: a name, and a space and a number for each word.
ghost use Rattle.std.specs.Prelude.{◌≡◌, ◌+◌, ◌*◌, ◌≤◌, min, length, take, drop};
ghost use Rattle.report.specs.Text.{Puts};
ghost use Rattle.report.specs.Lines.{row_of, row_bytes, table_of};

use crate::text::{put, spaced};

// Up to n words from a place on.
pub(crate) fn part(words: &[u32], from: usize, n: usize) -> &[u32]
    ensures { result.now ≡ take n (drop from words.now) }
{
    let rest = &words[from.min(words.len())..];
    &rest[..n.min(rest.len())]
}

pub(crate) fn row(out: &mut [u8], at: usize, name: &[u8], words: &[u32]) -> usize
    requires { at + row_bytes name.now (length words.now) ≤ length out.old }
    ensures puts { Puts (row_of name.now words.now) out.old at out.new result }
    ensures upper_bound { result ≤ at + row_bytes name.now (length words.now) }
{
    let mut p = put(out, at, name);
    for word in words {
        p = spaced(out, p, *word);
    }
    put(out, p, b"\n")
}

// n words on from a place, or the end.
fn further(from: usize, n: usize, end: usize) -> usize
    ensures { result ≡ min (from + n) end }
{
    from.saturating_add(n).min(end)
}

// n rows of that many words.
pub(crate) fn table(
    out: &mut [u8],
    at: usize,
    name: &[u8],
    words: &[u32],
    n: usize,
    size: usize,
) -> usize
    requires { at + n * row_bytes name.now size ≤ length out.old }
    ensures puts { Puts (table_of name.now size n words.now) out.old at out.new result }
    ensures upper_bound { result ≤ at + n * row_bytes name.now size }
{
    let mut p = at;
    let mut from = 0;
    for _ in 0..n {
        p = row(out, p, name, part(words, from, size));
        from = further(from, size, words.len());
    }
    p
}
