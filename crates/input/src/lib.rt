// The input of a program, read into a buffer that is lent. Of what the system gives nothing can be promised but how many bytes they are; of a reader
// whose bytes are known, which.
#![tactic(auto)]

ghost use Rattle.std.specs.Prelude.{◌≡◌, ◌↔◌, ◌+◌, ◌<◌, ◌≤◌, ℕ, [], ◌∷◌, length, take, drop, IfOk, OnErr, IfSome, IsNone, IsTrue, IsFalse};
ghost use Rattle.std.specs.Io.KnownBytes.{Consumes, IsAtEnd, Keeps};
ghost use Rattle.input.specs.Stopped.{Stopped};
ghost use Rattle.std.specs.Counts.{IsPrefixLen};

use std::fmt::Display;
use std::fs::File;
use std::io::Read;
use std::rt::Files;
use std::{io, str};

// The bytes of the buffers that programs read into.
pub const LARGE: usize = 65536;

pub const SMALL: usize = 4096;

#[derive(Clone, Copy, Debug, PartialEq, Eq)]
pub struct Input {
    // how many bytes were read, at the start of the buffer
    pub bytes: usize,
    // whether the buffer is full and there are more
    pub more: bool,
}

// One read, again where a signal comes first.
fn read_some<R: Read>(reader: &mut R, buf: &mut [u8]) -> io::Result<usize>
    ensures count { IfOk result (λ n. IsPrefixLen n buf.new) }
    ensures bytes { IfOk result (λ n. Consumes (R.remaining reader.old) (R.remaining reader.new) (take n buf.new)) }
    ensures end { IfOk result (λ n. n ≡ 0 → 0 < length buf.old → IsAtEnd (R.remaining reader.new)) }
    ensures err { OnErr result (Keeps (R.remaining reader.old) (R.remaining reader.new)) }
{
    for _ in 0..u64::MAX {
        match reader.read(buf) {
            Err(e) if e.kind() == io::ErrorKind::Interrupted => {}
            got => return got,
        }
    }
    Err(io::Error::from(io::ErrorKind::Interrupted))
}

// One read into the buffer from a place on.
fn read_after<R: Read>(reader: &mut R, buf: &mut [u8], at: usize) -> io::Result<usize>
    requires { at < length buf.old }
    ensures front { take at buf.new ≡ take at buf.old }
    ensures count { IfOk result (λ n. at + n ≤ length buf.new) }
    ensures bytes { IfOk result (λ n. Consumes (R.remaining reader.old) (R.remaining reader.new) (take n (drop at buf.new))) }
    ensures end { IfOk result (λ n. n ≡ 0 → IsAtEnd (R.remaining reader.new)) }
    ensures err { OnErr result (Keeps (R.remaining reader.old) (R.remaining reader.new)) }
{
    read_some(reader, &mut buf[at..])
}

// Reads until the buffer is full or the input ends. How many bytes were read, at the start of the buffer.
fn read_full<R: Read>(reader: &mut R, buf: &mut [u8]) -> io::Result<usize>
    ensures count { IfOk result (λ n. IsPrefixLen n buf.new) }
    ensures bytes { IfOk result (λ n. Consumes (R.remaining reader.old) (R.remaining reader.new) (take n buf.new)) }
    ensures end { IfOk result (λ n. n < length buf.new → IsAtEnd (R.remaining reader.new)) }
    ensures err { OnErr result (Stopped (R.remaining reader.old) (R.remaining reader.new) buf.new) }
{
    let mut done = 0;
    while done < buf.len() {
        let n = read_after(reader, buf, done)?;
        if n == 0 {
            return Ok(done);
        }
        done += n;
    }
    Ok(done)
}

// Whether there is a byte more.
fn more<R: Read>(reader: &mut R) -> io::Result<bool>
    ensures yes { IfOk result (λ b. IsTrue b → (x : ℕ) × Consumes (R.remaining reader.old) (R.remaining reader.new) (x ∷ [])) }
    ensures no { IfOk result (λ b. IsFalse b → Keeps (R.remaining reader.old) (R.remaining reader.new) × IsAtEnd (R.remaining reader.new)) }
    ensures err { OnErr result (Keeps (R.remaining reader.old) (R.remaining reader.new)) }
{
    let mut one = [0u8; 1];
    let got = read_some(reader, &mut one)?;
    Ok(got > 0)
}

// What a reader gives until its end. Of a reader whose bytes are known these are its first ones, as many as fit, and after an error those that were
// read stand at the front of the buffer.
pub fn read<R: Read>(reader: &mut R, buf: &mut [u8]) -> io::Result<Input>
    ensures count { IfOk result (λ input. IsPrefixLen input.bytes buf.new) }
    ensures bytes { IfOk result (λ input. IfSome (R.remaining reader.old) (λ xs. take input.bytes buf.new ≡ take (length buf.new) xs)) }
    ensures more { IfOk result (λ input. IfSome (R.remaining reader.old) (λ xs. IsTrue input.more ↔ length buf.new < length xs)) }
    ensures err { OnErr result (Stopped (R.remaining reader.old) (R.remaining reader.new) buf.new) }
{
    let bytes = read_full(reader, buf)?;
    let full = bytes == buf.len();
    Ok(Input {
        bytes,
        more: full && more(reader)?,
    })
}

// Tells on standard error why a file cannot be opened.
fn absent(rt: &impl Eprint, name: impl Display + Drop, why: io::Error) -> io::Result<Option<Input>>
    ensures { IfOk result IsNone }
{
    eprintln!(rt; "{name}: {why}")?;
    Ok(None)
}

// What a file holds; none for one that cannot be opened, which is told of on standard error. The system's paths are text: no other name can be
// opened. After an error the buffer is as long as it was; of its bytes nothing is known, since those that were read may stand there.
pub fn read_file<R: Files + Eprint>(
    rt: &R,
    name: &[u8],
    buf: &mut [u8],
) -> io::Result<Option<Input>>
    ensures count { IfOk result (λ found. IfSome found (λ input. IsPrefixLen input.bytes buf.new)) }
    ensures err { OnErr result (length buf.new ≡ length buf.old) }
{
    let Ok(path) = str::from_utf8(name) else {
        let why = io::Error::from(io::ErrorKind::InvalidFilename);
        return absent(rt, name.escape_ascii(), why);
    };
    match File::open(rt, path) {
        Ok(mut file) => Ok(Some(read(&mut file, buf)?)),
        Err(why) => absent(rt, path, why),
    }
}
