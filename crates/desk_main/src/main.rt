// One member of at most 65,536 bytes on standard input; the test program's line and, if it is accepted, a line for each node: its number,
// the node after it and all that is below it, the length of its name and the name's bytes in hexadecimal.
#![tactic(auto)]

use report::LINE_BYTES;
use sizes::{CELL_AREA, NODE_AREA};
use std::io;

fn text(rt: &impl Print, s: &[u8]) -> io::Result<()> {
    rt.write_all(s)
}

fn number(rt: &impl Print, n: usize) -> io::Result<()> {
    print!(rt; "{n}")
}

fn byte(rt: &impl Print, b: u8) -> io::Result<()> {
    print!(rt; " {b:02x}")
}

fn bytes(rt: &impl Print, s: &[u8]) -> io::Result<()> {
    for b in s {
        byte(rt, *b)?;
    }
    Ok(())
}

fn line(rt: &impl Print, i: usize, after: usize, name: &[u8]) -> io::Result<()> {
    text(rt, b"name ")?;
    number(rt, i)?;
    text(rt, b" ")?;
    number(rt, after)?;
    text(rt, b" ")?;
    number(rt, name.len())?;
    bytes(rt, name)?;
    text(rt, b"\n")
}

fn names(rt: &impl Print, s: &[u8], nodes: &[u32], count: usize) -> io::Result<()> {
    for i in 0..count {
        let after = desk::node_after(nodes, count, i);
        line(rt, i, after, desk::node_name(s, nodes, count, i))?;
    }
    Ok(())
}

fn answer(rt: &impl Print, s: &[u8]) -> io::Result<()> {
    let mut nodes = [0u32; NODE_AREA];
    let mut cells = [0u32; CELL_AREA];
    let a = member::read_member(s, &mut nodes, &mut cells);
    let mut out = [0u8; LINE_BYTES];
    let k = report::line(a, &mut out);
    text(rt, &out[..k])?;
    if a.refusal == 0 {
        names(rt, s, &nodes, a.nodes as usize)?;
    }
    Ok(())
}

fn main(rt: HostRuntime) -> io::Result<()> {
    let mut buf = [0u8; input::LARGE];
    let got = input::read(&mut rt.stdin(), &mut buf)?;
    if got.more {
        let mut out = [0u8; LINE_BYTES];
        let k = report::refusal(1, 0, &mut out);
        return text(&rt, &out[..k]);
    }
    let n = got.bytes;
    answer(&rt, &buf[..n])
}
