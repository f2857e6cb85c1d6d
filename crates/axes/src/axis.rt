// Axes: three counts that add up to the number of dimensions, and each dimension number once.
ghost use Rattle.std.specs.Prelude.{◌≡◌, ◌<◌, ◌≤◌, ◌+◌, min, eqb, drop};
ghost use Rattle.sizes.specs.Sizes.{most_dimensions};
ghost use Rattle.refusals.specs.Numbers.{by_number};
ghost use Rattle.grammar.specs.Rule.{items};
ghost use Rattle.grammar.specs.Laws.Layout.Check.{check};
ghost use Rattle.layout.specs.Keeps.{Keeps, Each};
ghost use Rattle.grammar.specs.RecordWords.{firsts};
ghost use Rattle.grammar.specs.Once.{fresh};
ghost use Rattle.grammar.specs.Rules.{counts_rule};
ghost use Rattle.axes.specs.Laws.Rows.{Row, row_of, after};
ghost use Rattle.axes.specs.Laws.Axes as spec;

use crate::AxesRead;
use layout::number::{any, peek};
use layout::{LITTLE, Step};
use once::seen_before;
use refusals::{Reason, Refusal};
use sizes::MOST_DIMENSIONS;

// x is a dimension number that was not named among the first j entries.
fn is_fresh(order: &[u32; MOST_DIMENSIONS], d: u64, j: usize, x: u64) -> bool
    requires { j ≤ most_dimensions }
    ensures { result ≡ fresh d (firsts 1 order.now j) x }
{
    x < d && !seen_before(order, j, 1, x)
}

// Entry j.
fn entry(s: &[u8], at: usize, d: u64, j: usize, order: &mut [u32; MOST_DIMENSIONS]) -> Step
    requires { j < most_dimensions }
    ensures { Keeps s.now (Row spec.entry_kind at (j, order.old)) (check (spec.entry_of d (firsts 1 order.old j)) (drop at s.now) at) (row_of (j + 1) (by_number result) order.new) }
{
    let x = peek(s, Ok(at), LITTLE, 4);
    let next = any(s, Ok(at), 4)?;
    if !is_fresh(order, d, j, x) {
        return Err(Refusal {
            reason: Reason::Axes,
            place: at,
        });
    }
    order[j] = (x % 4294967296) as u32;
    Ok(next)
}

// n entries, of dimension numbers below d.
fn entries(s: &[u8], at: usize, d: u64, n: usize, order: &mut [u32; MOST_DIMENSIONS]) -> Step
    requires { n ≤ most_dimensions }
    ensures { Keeps s.now (Each (Row spec.entry_kind) at (0, order.old)) (check (items {n = n} (after spec.entry_kind (spec.entry_of d))) (drop at s.now) at) (row_of n (by_number result) order.new) }
{
    let mut at = at;
    for j in 0..n {
        at = entry(s, at, d, j, order)?;
    }
    Ok(at)
}

// The three counts add up to d.
fn adds_up(layers: u64, rows: u64, columns: u64, d: u64) -> bool
    ensures { result ≡ eqb (layers + rows + columns) d }
{
    layers <= d && rows <= d - layers && columns == d - layers - rows
}

// The axes of a table of d dimensions; a larger number counts as `MOST_DIMENSIONS`.
pub fn axes(s: &[u8], at: usize, d: usize) -> Result<AxesRead, Refusal>
    ensures { Keeps s.now spec.AllAxes (check (counts_rule (min d most_dimensions)) (drop at s.now) at) (spec.axes_out (by_number result)) }
{
    let d = d.min(MOST_DIMENSIONS);
    let layers = peek(s, Ok(at), LITTLE, 4);
    let a = any(s, Ok(at), 4);
    let rows = peek(s, a, LITTLE, 4);
    let b = any(s, a, 4);
    let columns = peek(s, b, LITTLE, 4);
    let first = any(s, b, 4)?;
    if !adds_up(layers, rows, columns, d as u64) {
        return Err(Refusal {
            reason: Reason::Axes,
            place: at,
        });
    }
    let mut order = [0u32; MOST_DIMENSIONS];
    let end = entries(s, first, d as u64, d, &mut order)?;
    Ok(AxesRead {
        layers: (layers % 4294967296) as u32,
        rows: (rows % 4294967296) as u32,
        columns: (columns % 4294967296) as u32,
        order,
        end,
    })
}
