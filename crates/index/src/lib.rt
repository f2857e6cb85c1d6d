// Index arithmetic: the exact product of all n, which is how many places a table has (document 01, "What the caller gets").
#![tactic(auto)]

ghost use Rattle.std.specs.Prelude.{◌≡◌, ◌+◌, ◌*◌, ◌/◌, ◌%◌, ◌≤◌, min};
ghost use Rattle.sizes.specs.Sizes.{most_dimensions, most_places};
ghost use Rattle.grammar.specs.RecordWords.{sizes};
ghost use Rattle.grammar.specs.Index as spec;

use once::word;
use sizes::{DIMENSION_N, DIMENSION_WORDS, MOST_DIMENSIONS, MOST_PLACES};

// The first product that is too large.
const TOO_MANY: u64 = MOST_PLACES + 1;

// k divided by n; 0 for an n of 0.
pub fn quotient(k: u64, n: u64) -> u64
    ensures { result ≡ k / n }
{
    k.checked_div(n).unwrap_or(0)
}

// What is left of k after division by n; k for an n of 0.
pub fn remainder(k: u64, n: u64) -> u64
    ensures { result ≡ k % n }
{
    k.checked_rem(n).unwrap_or(k)
}

// The product of two numbers, as far as one too large.
pub fn times(p: u64, n: u32) -> u64
    requires { p ≤ most_places + 1 }
    ensures { result ≡ min (p * n) (most_places + 1) }
{
    (p * u64::from(n)).min(TOO_MANY)
}

// The product of the n of the `count` dimensions from dimension i on, as far as one too large; more than there can be count as so many. An n of 0
// makes it 0, even after the limit was met.
pub fn product_from(dims: &[u32], i: usize, count: usize) -> u64
    ensures { result ≡ min (spec.product (sizes dims.now (min i most_dimensions) (min count most_dimensions))) (most_places + 1) }
{
    let first = i.min(MOST_DIMENSIONS);
    let mut p: u64 = 1;
    for e in first..first + count.min(MOST_DIMENSIONS) {
        p = times(p, word(dims, DIMENSION_WORDS * e + DIMENSION_N));
    }
    p
}

// The product of the n of d dimensions, likewise.
pub fn product_of(dims: &[u32], d: usize) -> u64
    ensures { result ≡ min (spec.product (sizes dims.now 0 (min d most_dimensions))) (most_places + 1) }
{
    product_from(dims, 0, d)
}
