// What Values and Arguments say. Standard input, of at most 65,536 bytes, has one after the other: a byte for the version, 0 for a Value or 1
// for an Argument, a length of two bytes, the lowest first, and as many bytes. For each a line is written: the words of
// `digarumbi_value` or `digarumbi_argument`, the double's bits as one number.
#![tactic(auto)]

use contents::{Argument, Contents, RawValue};
use layout::LITTLE;
use layout::number::{any, peek};
use refusals::Refusal;
use regions::region::{bytes, part};
use std::io;
use store::Name;

fn text(rt: &impl Print, s: &[u8]) -> io::Result<()> {
    rt.write_all(s)
}

fn number(rt: &impl Print, n: u64) -> io::Result<()> {
    print!(rt; " {n}")
}

fn name(rt: &impl Print, n: Name) -> io::Result<()> {
    number(rt, n.place as u64)?;
    number(rt, n.length as u64)
}

fn numbers(rt: &impl Print, x: RawValue) -> io::Result<()> {
    number(rt, x.form as u64)?;
    number(rt, x.format as u64)?;
    number(rt, x.bits)?;
    number(rt, x.show as u64)?;
    number(rt, x.fixed as u64)
}

fn names(rt: &impl Print, x: RawValue) -> io::Result<()> {
    for n in [x.text, x.var_name, x.label, x.id, x.c] {
        name(rt, n)?;
    }
    Ok(())
}

// The number and the place of a refusal, or 0 and 0.
fn verdict(rt: &impl Print, refusal: Option<Refusal>) -> io::Result<()> {
    match refusal {
        Some(refusal) => {
            number(rt, refusal.reason.number() as u64)?;
            number(rt, refusal.place as u64)
        }
        None => zeros(rt, 2),
    }
}

fn zeros(rt: &impl Print, n: usize) -> io::Result<()> {
    for _ in 0..n {
        number(rt, 0)?;
    }
    Ok(())
}

// The words of a Value that was read; zeros after a refusal.
fn value(rt: &impl Print, read: Result<Contents, Refusal>) -> io::Result<()> {
    text(rt, b"value")?;
    verdict(rt, read.err())?;
    match read {
        Ok(x) => {
            number(rt, x.length as u64)?;
            number(rt, x.zeros as u64)?;
            numbers(rt, x.raw)?;
            names(rt, x.raw)?;
            number(rt, x.raw.arguments as u64)?;
            number(rt, x.raw.first_argument as u64)?;
        }
        Err(_) => zeros(rt, 19)?,
    }
    text(rt, b"\n")
}

fn argument(rt: &impl Print, read: Result<Argument, Refusal>) -> io::Result<()> {
    text(rt, b"argument")?;
    verdict(rt, read.err())?;
    match read {
        Ok(x) => {
            number(rt, x.length as u64)?;
            number(rt, x.values as u64)?;
            number(rt, x.first as u64)?;
        }
        Err(_) => zeros(rt, 3)?,
    }
    text(rt, b"\n")
}

fn line(rt: &impl Print, s: &[u8], version: u64, kind: u64) -> io::Result<()> {
    if kind == 0 {
        value(rt, contents::read_value(s, version))
    } else {
        argument(rt, contents::read_argument(s, version))
    }
}

// The one that starts at a place, and where the next starts.
fn one(rt: &impl Print, s: &[u8], at: usize) -> io::Result<usize> {
    let st = Ok(at);
    let version = peek(s, st, LITTLE, 1);
    let st = any(s, st, 1);
    let kind = peek(s, st, LITTLE, 1);
    let st = any(s, st, 1);
    let p = part(s, st, LITTLE, 2);
    line(rt, bytes(s, p), version, kind)?;
    match p {
        Ok((_, end)) => Ok(end),
        Err(_) => Ok(s.len()),
    }
}

// At most 4,096 of them.
fn lines(rt: &impl Print, s: &[u8]) -> io::Result<()> {
    let mut at = 0;
    for _ in 0..4096 {
        if s.len() <= at {
            return Ok(());
        }
        at = one(rt, s, at)?;
    }
    Ok(())
}

fn main(rt: HostRuntime) -> io::Result<()> {
    let mut buf = [0u8; input::LARGE];
    let got = input::read(&mut rt.stdin(), &mut buf)?;
    let n = got.bytes;
    lines(&rt, &buf[..n])
}
