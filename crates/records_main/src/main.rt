// One member of at most 65,536 bytes on standard input; the test program's line and, if it is accepted, its records.
#![tactic(auto)]

use report::{LINE_BYTES, RECORDS_BYTES};
use sizes::{CELL_AREA, NODE_AREA};
use std::io;

fn answer(rt: &impl Print, s: &[u8]) -> io::Result<()> {
    let mut nodes = [0u32; NODE_AREA];
    let mut cells = [0u32; CELL_AREA];
    let a = member::read_member(s, &mut nodes, &mut cells);
    let mut out = [0u8; LINE_BYTES];
    let k = report::line(a, &mut out);
    rt.write_all(&out[..k])?;
    if a.refusal == 0 {
        let mut out = [0u8; RECORDS_BYTES];
        let k = report::records(a, &nodes, &cells, &mut out);
        rt.write_all(&out[..k])?;
    }
    Ok(())
}

fn main(rt: HostRuntime) -> io::Result<()> {
    let mut buf = [0u8; input::LARGE];
    let got = input::read(&mut rt.stdin(), &mut buf)?;
    if got.more {
        let mut out = [0u8; LINE_BYTES];
        let k = report::refusal(1, 0, &mut out);
        return rt.write_all(&out[..k]);
    }
    let n = got.bytes;
    answer(&rt, &buf[..n])
}
