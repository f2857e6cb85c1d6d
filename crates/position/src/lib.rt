// The layer, row and column position of a cell, and the index of a position (document 02, T-11). Any numbers get an answer: a word past
// the last of a slice counts as 0.
#![tactic(auto)]

ghost use Rattle.std.specs.Prelude.{◌≡◌, [], ◌∷◌, ◌+◌, ◌≤◌, min, length, IfErr, MatchResult};
ghost use Rattle.sizes.specs.Sizes.{most_dimensions, most_places};
ghost use Rattle.refusals.specs.Numbers.{number};
ghost use Rattle.refusals.specs.Verdicts.{Refuses};
ghost use Rattle.grammar.specs.RecordWords.{word};
ghost use Rattle.grammar.specs.Index.{product, coordinate};
ghost use Rattle.position.specs.Axes as axes;
ghost use Rattle.position.specs.Axes.{position_on, coordinate_on, part, axes_of};
ghost use Rattle.position.specs.Answers as answers;
ghost use Rattle.position.specs.Views.{position_view, index_view};
ghost use Rattle.position.specs.Laws.Table.{down};
ghost use Rattle.position.specs.Laws.Turned.{Fits, Placed};
ghost use Rattle.position.specs.Laws.Accepted.{Accepted, Axis};

use index::{quotient, remainder, times};
use once::word;
use refusals::Reason;
use sizes::{MOST_DIMENSIONS, MOST_PLACES};

// Where a cell stands.
#[derive(Clone, Copy, Debug, PartialEq, Eq)]
pub struct Position {
    pub layer: u32,
    pub row: u32,
    pub column: u32,
}

// ---- products, and a coordinate

// The coordinate of the index k on dimension e: of what k is over the product of the n behind it. Products take less time than quotients,
// and one that is too large is above any k.
fn coordinate(ns: &[u32], e: usize, k: u32) -> u64
    ensures { result ≡ coordinate_on (word ns.now) (down (length ns.now)) k e }
{
    let mut step: u64 = 1;
    for i in (0..ns.len()).rev() {
        let n = ns[i];
        if i == e {
            return remainder(quotient(u64::from(k), step), u64::from(n));
        }
        step = times(step, n);
    }
    0
}

// The product of all n, as far as one too large. An n of 0 makes it 0, even after the limit was met.
fn places(ns: &[u32]) -> u64
    ensures { result ≡ min (product ns.now) (most_places + 1) }
{
    let mut p: u64 = 1;
    for n in ns {
        p = times(p, *n);
    }
    p
}

// How many positions an axis has, as far as one too large.
fn span(ns: &[u32], axis: &[u32]) -> u64
    ensures { result ≡ min (axes.span (word ns.now) axis.now) (most_places + 1) }
{
    let mut p: u64 = 1;
    for e in axis {
        p = times(p, word(ns, *e as usize));
    }
    p
}

// ---- positions on an axis

// The position of the cell with index k.
fn along(ns: &[u32], axis: &[u32], k: u32) -> u32
    requires { Axis ns.now k axis.now }
    ensures { result ≡ position_on (word ns.now) (λ e. coordinate ns.now e k) axis.now }
{
    let mut p: u64 = 0;
    for i in (0..axis.len()).rev() {
        let e = axis[i] as usize;
        let x = coordinate(ns, e, k);
        p = u64::from(word(ns, e)) * p + x;
    }
    p as u32
}

// Stores the coordinates of the position k, each at the place of its dimension.
fn store_coordinates(ns: &[u32], axis: &[u32], k: u32, xs: &mut [u64; MOST_DIMENSIONS])
    requires { (length ns.now ≤ length xs.old) × (length xs.old ≡ most_dimensions) × Axis ns.now 0 axis.now }
    ensures { Placed (word ns.now) axis.now k xs.old xs.new }
{
    let mut rest = u64::from(k);
    for e in axis {
        let e = *e as usize;
        let n = u64::from(word(ns, e));
        xs[e] = remainder(rest, n);
        rest = quotient(rest, n);
    }
}

// ---- tables

// Whether the entries are numbers below how many they are, once each: the last first, with marks for those that follow.
fn permutes(order: &[u32]) -> bool
    requires { length order.now ≤ most_dimensions }
    ensures { result ≡ answers.each_axis_once (length order.now) order.now }
{
    let mut marks = [0u8; MOST_DIMENSIONS];
    for i in (0..order.len()).rev() {
        let e = order[i] as usize;
        if order.len() <= e || marks[e] != 0 {
            return false;
        }
        marks[e] = 1;
    }
    true
}

// An accepted table: the n of its dimensions, and the order in which they stand on its axes, first those of the layers, then those of the
// rows and of the columns.
#[derive(Clone, Copy)]
struct Table<'a> {
    ns: &'a [u32],
    layers: usize,
    rows: usize,
    columns: usize,
    order: &'a [u32],
    ghost whole: { layers + rows + columns ≡ length order.now },
    ghost accepted: { answers.refusal ns.now layers rows columns order.now ≡ 0 },
}

impl<'a> Table<'a> {
    // The table with these n and axes; or why there is none.
    fn accept(
        ns: &'a [u32],
        layers: u32,
        rows: u32,
        columns: u32,
        order: &'a [u32],
    ) -> Result<Table<'a>, Reason>
        ensures { MatchResult result
            (λ t. (t.ns.now ≡ ns.now) × (t.layers ≡ layers) × (t.rows ≡ rows) × (t.columns ≡ columns) × (t.order.now ≡ order.now))
            (λ r. (number r ≡ answers.refusal ns.now layers rows columns order.now) × Refuses r) }
    {
        let d = ns.len();
        if MOST_DIMENSIONS < d || MOST_PLACES < places(ns) {
            return Err(Reason::Limit);
        }
        if u64::from(layers) + u64::from(rows) + u64::from(columns) != d as u64
            || order.len() != d
            || !permutes(order)
        {
            return Err(Reason::Axes);
        }
        Ok(Table {
            ns,
            layers: layers as usize,
            rows: rows as usize,
            columns: columns as usize,
            order,
        })
    }

    fn layers(&self) -> &'a [u32]
        ensures { result.now ≡ part (word self.now.order.now) 0 self.now.layers }
    {
        &self.order[..self.layers]
    }

    fn rows(&self) -> &'a [u32]
        ensures { result.now ≡ part (word self.now.order.now) self.now.layers self.now.rows }
    {
        &self.order[self.layers..self.layers + self.rows]
    }

    fn columns(&self) -> &'a [u32]
        ensures { result.now ≡ part (word self.now.order.now) (self.now.layers + self.now.rows) self.now.columns }
    {
        &self.order[self.layers + self.rows..]
    }

    // The index of the cell there, by the coordinates on all axes.
    fn index_at(&self, cell: Position) -> u32
        requires { Fits (word self.now.ns.now) (axes_of self.now.order.now self.now.layers self.now.rows self.now.columns) (cell.layer ∷ cell.row ∷ cell.column ∷ []) }
        ensures { result ≡ axes.index_at self.now.ns.now (axes_of self.now.order.now self.now.layers self.now.rows self.now.columns) (cell.layer ∷ cell.row ∷ cell.column ∷ []) }
    {
        let mut xs = [0u64; MOST_DIMENSIONS];
        store_coordinates(self.ns, self.columns(), cell.column, &mut xs);
        store_coordinates(self.ns, self.rows(), cell.row, &mut xs);
        store_coordinates(self.ns, self.layers(), cell.layer, &mut xs);
        let mut k: u64 = 0;
        for (i, n) in self.ns.iter().enumerate() {
            k = u64::from(*n) * k + xs[i];
        }
        k as u32
    }
}

// ---- positions, and back

// The layer, row and column position of the cell with index k, in a table with these n and axes; or why there is none, at place 0. No
// struct for the table: the parameters are those of `digarumbi_position`.
pub fn position_of(
    ns: &[u32],
    layers: u32,
    rows: u32,
    columns: u32,
    order: &[u32],
    k: u32,
) -> Result<Position, Reason>
    ensures answer { position_view result ≡ answers.position ns.now layers rows columns order.now k }
    ensures reason { IfErr result Refuses }
{
    let table = Table::accept(ns, layers, rows, columns, order)?;
    if places(ns) <= u64::from(k) {
        return Err(Reason::CellIndex);
    }
    Ok(Position {
        layer: along(ns, table.layers(), k),
        row: along(ns, table.rows(), k),
        column: along(ns, table.columns(), k),
    })
}

// The index of the cell at these positions, in a table with these n and axes; or why there is none, at place 0. The parameters are those of
// `digarumbi_index`.
pub fn index_of(
    ns: &[u32],
    layers: u32,
    rows: u32,
    columns: u32,
    order: &[u32],
    layer: u32,
    row: u32,
    column: u32,
) -> Result<u32, Reason>
    ensures answer { index_view result ≡ answers.index_of ns.now layers rows columns order.now layer row column }
    ensures reason { IfErr result Refuses }
{
    let table = Table::accept(ns, layers, rows, columns, order)?;
    if span(ns, table.layers()) <= u64::from(layer)
        || span(ns, table.rows()) <= u64::from(row)
        || span(ns, table.columns()) <= u64::from(column)
    {
        return Err(Reason::CellIndex);
    }
    Ok(table.index_at(Position { layer, row, column }))
}
