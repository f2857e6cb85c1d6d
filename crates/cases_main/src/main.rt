// Streams of case data. Standard input, of at most 65,536 bytes, has one stream after the other: how many kinds and as many bytes; the bias in two bytes; how
// many bytes a call is offered, and for how many elements it has room, 0, 1 or 8; a length of two bytes, the lowest first, and the stream. For
// each the answers are written: of the start, of each call with its elements as numbers, and of the end.
#![tactic(auto)]

use case_state::State;
use cases::{Answer, Call};
use layout::number::{any, left, peek};
use layout::{LITTLE, Span, Step};
use regions::region::{bytes, part};
use std::io;

fn text(rt: &impl Print, s: &[u8]) -> io::Result<()> {
    rt.write_all(s)
}

fn number(rt: &impl Print, n: u64) -> io::Result<()> {
    print!(rt; " {n}")
}

// The first n elements, of at most eight, as the numbers that their bytes spell, the lowest first.
fn elements(rt: &impl Print, s: &[u8], n: usize) -> io::Result<()> {
    for i in 0..n.min(8) {
        number(rt, peek(s, Ok(8 * i), LITTLE, 8))?;
    }
    Ok(())
}

// The number of a refusal, or 0, and its place.
fn answer(rt: &impl Print, answer: Answer) -> io::Result<()> {
    match answer {
        Ok(()) => text(rt, b" 0 0"),
        Err(refusal) => {
            number(rt, refusal.reason.number() as u64)?;
            number(rt, refusal.place as u64)
        }
    }
}

// One call: the state after it, and whether it took or wrote something and has no refusal.
#[derive(Clone, Copy)]
struct Turned {
    state: State,
    taken: usize,
    goes_on: bool,
}

// The line of a call, and how it goes on.
fn line(rt: &impl Print, call: Call, out: &[u8]) -> io::Result<Turned> {
    text(rt, b"feed")?;
    answer(rt, call.answer)?;
    number(rt, call.taken as u64)?;
    number(rt, call.written as u64)?;
    elements(rt, out, call.written)?;
    text(rt, b"\n")?;
    let some = call.taken != 0 || call.written != 0;
    Ok(Turned {
        state: call.state,
        taken: call.taken,
        goes_on: some && call.answer.is_ok(),
    })
}

// A call with an output of no room, or room for one element or eight.
fn turn(rt: &impl Print, state: State, input: &[u8], room: usize) -> io::Result<Turned> {
    let mut out = [0u8; 64];
    let bytes = match room {
        0 => 7,
        1 => 8,
        _ => 64,
    };
    let call = cases::feed(state, input, &mut out[..bytes]);
    line(rt, call, &out[..bytes])
}

// Past the bytes that a call took.
fn past(s: &[u8], at: usize, taken: usize) -> usize {
    at + taken.min(left(s, at))
}

fn ended(rt: &impl Print, state: State) -> io::Result<()> {
    text(rt, b"end")?;
    answer(rt, cases::finish(state))?;
    text(rt, b"\n")
}

// Calls until one takes and writes nothing, at most 512, and the end.
fn calls(rt: &impl Print, state: State, stream: &[u8], cut: usize, room: usize) -> io::Result<()> {
    let mut state = state;
    let mut at: usize = 0;
    for _ in 0..512 {
        let offered = cut.min(left(stream, at));
        let t = turn(rt, state, layout::slice::part(stream, at, offered), room)?;
        state = t.state;
        at = past(stream, at, t.taken);
        if !t.goes_on {
            return ended(rt, state);
        }
    }
    ended(rt, state)
}

fn stream(
    rt: &impl Print,
    kinds: &[u8],
    bias: u64,
    cut: u64,
    room: u64,
    s: &[u8],
) -> io::Result<()> {
    text(rt, b"start")?;
    match cases::start(kinds, bias.min(65535) as u32) {
        Ok(state) => {
            answer(rt, Ok(()))?;
            text(rt, b"\n")?;
            calls(rt, state, s, cut as usize, room as usize)
        }
        Err(refusal) => {
            answer(rt, Err(refusal))?;
            text(rt, b"\n")
        }
    }
}

// The stream that starts at a place, and where the next starts.
fn one(rt: &impl Print, s: &[u8], at: usize) -> io::Result<usize> {
    let kinds = part(s, Ok(at), LITTLE, 1);
    let Ok((_, after)) = kinds else {
        return Ok(s.len());
    };
    let st = Ok(after);
    let bias = peek(s, st, LITTLE, 2);
    let st = any(s, st, 2);
    let cut = peek(s, st, LITTLE, 1);
    let st = any(s, st, 1);
    let room = peek(s, st, LITTLE, 1);
    let st = any(s, st, 1);
    let data = part(s, st, LITTLE, 2);
    stream(rt, bytes(s, kinds), bias, cut, room, bytes(s, data))?;
    match data {
        Ok((_, end)) => Ok(end),
        Err(_) => Ok(s.len()),
    }
}

// At most 4,096 of them.
fn lines(rt: &impl Print, s: &[u8]) -> io::Result<()> {
    let mut at = 0;
    for _ in 0..4096 {
        if s.len() <= at {
            return Ok(());
        }
        at = one(rt, s, at)?;
    }
    Ok(())
}

fn main(rt: HostRuntime) -> io::Result<()> {
    let mut buf = [0u8; input::LARGE];
    let got = input::read(&mut rt.stdin(), &mut buf)?;
    let n = got.bytes;
    lines(&rt, &buf[..n])
}
