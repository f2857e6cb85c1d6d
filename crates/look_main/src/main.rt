// The look on standard input, read and written as version 02: exactly the rewritten file's bytes, or the line `refused N at P`.
#![tactic(auto)]

use look::read::read_look;
use look_write::write_look;
use refusals::Refusal;
use regions::region::bytes;
use report::LINE_BYTES;
use sizes::LONGEST_LOOK;
use std::io;

fn refused(rt: &impl Print, refusal: Refusal) -> io::Result<()> {
    let mut out = [0u8; LINE_BYTES];
    let k = report::refusal(refusal.reason.number(), refusal.place, &mut out);
    rt.write_all(&out[..k])
}

// Reads a look and writes it again.
fn rewritten(file: &[u8], out: &mut [u8]) -> Result<usize, Refusal> {
    let look = read_look(file)?;
    write_look(look, file, out)
}

fn rewrite(rt: &impl Print, file: &[u8]) -> io::Result<()> {
    let mut out = [0u8; LONGEST_LOOK];
    match rewritten(file, &mut out) {
        Ok(n) => rt.write_all(bytes(&out, Ok((0, n)))),
        Err(refusal) => refused(rt, refusal),
    }
}

// An accepted look has at most 3,160 bytes, so a longer input is refused by its first 4,096.
fn main(rt: HostRuntime) -> io::Result<()> {
    let mut buf = [0u8; input::SMALL];
    let got = input::read(&mut rt.stdin(), &mut buf)?;
    rewrite(&rt, &buf[..got.bytes])
}
