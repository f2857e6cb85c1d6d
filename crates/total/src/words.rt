// Totals as words.
ghost use Rattle.std.specs.Prelude.{◌≡◌, not, T};
ghost use Rattle.std.specs.Float.{binary64};
ghost use Rattle.std.specs.Float.Ieee.{is_nan, to_bits};
ghost use Rattle.store.specs.Puts.{PutsWords};
ghost use Rattle.total.specs.Words as spec;
ghost use Rattle.total.specs.Laws.Doubles.{Numbers};

use crate::LeafTotal;
use layout::Step;
use store::words::put;

pub fn bits(x: f64) -> u64
    requires { T (not (is_nan x)) }
    ensures { result ≡ to_bits binary64 x }
{
    x.to_bits()
}

// The nine words of totals, from a position on.
pub fn sum_words(out: &mut [u32], st: Step, x: LeafTotal) -> Step
    requires { Numbers x }
    ensures { PutsWords (spec.sum_words x) out.old st out.new result }
{
    let smallest = bits(x.smallest);
    let largest = bits(x.largest);
    put(
        out,
        st,
        &[
            (x.total % 4294967296) as u32,
            (x.total / 4294967296) as u32,
            x.numbers,
            x.texts,
            x.missing,
            (smallest % 4294967296) as u32,
            (smallest / 4294967296) as u32,
            (largest % 4294967296) as u32,
            (largest / 4294967296) as u32,
        ],
    )
}
