// The looks that the arguments name: a line for what each gets, and for an accepted one how it is rewritten, and what its writer answers for
// too short an output, for no names, for the same look with the default continuation, as version 00 and as version 01, with a title font
// name of 256 bytes, and with a title color whose high byte is 1.
#![tactic(auto)]

use look::{Continuation, Look, V2Styles};
use refusals::Refusal;
use regions::region::bytes;
use sizes::LONGEST_LOOK;
use std::env::FillError;
use std::io;
use std::rt::{Env, Files};
use store::Written;

// The shortest look that is written, of version 02 with empty names.
const SHORTEST_LOOK: usize = 713;

fn text(rt: &impl Print, s: &[u8]) -> io::Result<()> {
    rt.write_all(s)
}

fn number(rt: &impl Print, n: u64) -> io::Result<()> {
    print!(rt; "{n}")
}

fn refused(rt: &impl Print, refusal: Refusal) -> io::Result<()> {
    let number = refusal.reason.number();
    let place = refusal.place;
    print!(rt; "refused {number} at {place}")
}

fn answer(rt: &impl Print, w: Written) -> io::Result<()> {
    match w {
        Ok(n) => number(rt, n as u64),
        Err(refusal) => refused(rt, refusal),
    }
}

// What the writer answers for the look as that version.
fn as_version(rt: &impl Print, look: Look, version: u8, file: &[u8]) -> io::Result<()> {
    let mut other = look;
    other.version = version;
    let mut out = [0u8; LONGEST_LOOK];
    answer(rt, look_write::write_look(other, file, &mut out))
}

// What it answers for the look with the default continuation.
fn with_default(rt: &impl Print, look: Look, file: &[u8]) -> io::Result<()> {
    let other = Look {
        v2: V2Styles {
            continuation: Continuation::Default,
            ..look.v2
        },
        ..look
    };
    let mut out = [0u8; LONGEST_LOOK];
    answer(rt, look_write::write_look(other, file, &mut out))
}

// What it answers for the look with another length of the title's font name.
fn with_name(rt: &impl Print, look: Look, length: usize, file: &[u8]) -> io::Result<()> {
    let mut other = look;
    other.title.style.typeface.font_name.length = length;
    let mut out = [0u8; LONGEST_LOOK];
    answer(rt, look_write::write_look(other, file, &mut out))
}

// What it answers for the look with another first color of the title.
fn with_color(rt: &impl Print, look: Look, color: u32, file: &[u8]) -> io::Result<()> {
    let mut other = look;
    other.title.color.color10 = color;
    let mut out = [0u8; LONGEST_LOOK];
    answer(rt, look_write::write_look(other, file, &mut out))
}

// What it answers for an output of one byte less than the shortest look has.
fn short(rt: &impl Print, look: Look, file: &[u8]) -> io::Result<()> {
    let mut out = [0u8; SHORTEST_LOOK - 1];
    answer(rt, look_write::write_look(look, file, &mut out))
}

fn rewritten(look: Look, file: &[u8]) -> bool {
    let mut out = [0u8; LONGEST_LOOK];
    match look_write::write_look(look, file, &mut out) {
        Ok(n) => bytes(&out, Ok((0, n))) == file,
        Err(_) => false,
    }
}

// How the file that was written is rewritten itself.
fn again(rt: &impl Print, file: &[u8]) -> io::Result<()> {
    match look::read::read_look(file) {
        Ok(look) => {
            if rewritten(look, file) {
                text(rt, b"the same")
            } else {
                text(rt, b"differently")
            }
        }
        Err(refusal) => refused(rt, refusal),
    }
}

// A file that isn't rewritten the same: of version 00.
fn as_version_02(rt: &impl Print, look: Look, file: &[u8]) -> io::Result<()> {
    let mut out = [0u8; LONGEST_LOOK];
    match look_write::write_look(look, file, &mut out) {
        Ok(n) => {
            print!(rt; "as version 02, {n} bytes, and that ")?;
            again(rt, bytes(&out, Ok((0, n))))
        }
        Err(refusal) => refused(rt, refusal),
    }
}

fn accepted(rt: &impl Print, look: Look, file: &[u8]) -> io::Result<()> {
    print!(rt; "accepted, {} bytes, rewritten ", file.len())?;
    if rewritten(look, file) {
        text(rt, b"the same")?;
    } else {
        as_version_02(rt, look, file)?;
    }
    text(rt, b"; too short an output: ")?;
    short(rt, look, file)?;
    let mut out = [0u8; LONGEST_LOOK];
    text(rt, b"; no names: ")?;
    answer(rt, look_write::write_look(look, b"", &mut out))?;
    text(rt, b"; the default continuation: ")?;
    with_default(rt, look, file)?;
    text(rt, b"; version 00: ")?;
    as_version(rt, look, 0, file)?;
    text(rt, b"; version 01: ")?;
    as_version(rt, look, 1, file)?;
    text(rt, b"; a name of 256 bytes: ")?;
    with_name(rt, look, 256, file)?;
    text(rt, b"; a color of 01000000: ")?;
    with_color(rt, look, 0x01000000, file)
}

fn report(rt: &impl Print, file: &[u8]) -> io::Result<()> {
    match look::read::read_look(file) {
        Ok(look) => accepted(rt, look, file)?,
        Err(refusal) => refused(rt, refusal)?,
    }
    text(rt, b"\n")
}

// The file that an argument names.
fn one(rt: &(impl Files + Print + Eprint), path: &[u8]) -> io::Result<()> {
    let mut buf = [0u8; input::SMALL];
    let Some(got) = input::read_file(rt, path, &mut buf)? else {
        return Ok(());
    };
    text(rt, path)?;
    text(rt, b": ")?;
    report(rt, &buf[..got.bytes])
}

fn main(rt: HostRuntime) -> io::Result<()> {
    for i in 1..usize::MAX {
        let mut path = [0u8; input::SMALL];
        let length = match rt.arg(i, &mut path) {
            Ok(length) => length,
            // one that is too long names no file
            Err(FillError::TooLong) => 0,
            Err(FillError::NotPresent) => break,
        };
        one(&rt, &path[..length])?;
    }
    Ok(())
}
