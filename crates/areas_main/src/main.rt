// A member of 9 nodes and 10 cells on standard input, and what it gets with lent areas of several lengths: none, the nodes' one word
// short, the cells' one word short, both exact. The line, and the counts of nodes and cells.
#![tactic(auto)]

ghost use Rattle.std.specs.Prelude.{◌^◌, ◌<◌};

use answer::Answer;
use report::LINE_BYTES;
use sizes::{CELL_WORDS, NODE_WORDS};
use std::io;

// What the records of that member take.
const NODES: usize = 9 * NODE_WORDS;

const CELLS: usize = 10 * CELL_WORDS;

// One word less.
const FEW_NODES: usize = NODES - 1;

const FEW_CELLS: usize = CELLS - 1;

fn counts(rt: &impl Print, a: Answer) -> io::Result<()> {
    let mut out = [0u8; LINE_BYTES];
    let k = report::line(a, &mut out);
    rt.write_all(&out[..k])?;
    println!(rt; "{} {}", a.nodes, a.cells)
}

// What it gets with areas of these lengths.
fn with_areas<const N: usize, const C: usize>(rt: &impl Print, s: &[u8]) -> io::Result<()>
    requires { (N < 2 ^ 32) × (C < 2 ^ 32) }
{
    let mut nodes = [0u32; N];
    let mut cells = [0u32; C];
    counts(rt, member::read_member(s, &mut nodes, &mut cells))
}

fn main(rt: HostRuntime) -> io::Result<()> {
    let mut buf = [0u8; input::LARGE];
    let got = input::read(&mut rt.stdin(), &mut buf)?;
    let s = &buf[..got.bytes];
    with_areas::<0, 0>(&rt, s)?;
    with_areas::<FEW_NODES, CELLS>(&rt, s)?;
    with_areas::<NODES, FEW_CELLS>(&rt, s)?;
    with_areas::<NODES, CELLS>(&rt, s)
}
