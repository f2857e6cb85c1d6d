// Text in windows-1250, 1251 or 1252 to UTF-8, and back.
#![tactic(auto)]

mod entries; // to UTF-8, by the entries of a page
mod rows; // and back, by its rows
mod tables; // the constant tables
mod utf8; // the rows of UTF-8
mod way; // what both passes need of a way to convert

ghost use Rattle.std.specs.Prelude.{◌≡◌, ◌+◌, ◌-◌, ◌≤◌, ◌<◌, true, length, take, drop};
ghost use Rattle.std.proofs.lemmas.List.Edits.{sets};
ghost use Rattle.refusals.specs.Numbers.{by_number};
ghost use Rattle.convert.specs.Convert as spec;
ghost use Rattle.codepages.specs.Answer.{answer};
ghost use Rattle.codepages.specs.Found.{MeasuredAs, KnownPage};
ghost use Rattle.ascii.specs.Runs.{block};
ghost use Rattle.codepages.specs.Laws.Passes.{half, Grown, Ready, Wrote};

use crate::entries::ToUtf8;
use crate::rows::FromUtf8;
use crate::way::{Taken, Way};
use ascii::{BLOCK, leading, long_run_end, run_end};
use pages::Page;
use refusals::{Reason, Refusal};

// ---- the two functions: how many bytes were written, or why the text is refused, and where

pub fn to_utf8(page: u32, input: &[u8], out: &mut [u8]) -> Result<usize, Refusal>
    ensures value { by_number result ≡ answer (spec.converted spec.to page (length out.old) input.now) }
    ensures out_after { out.new ≡ spec.after (spec.converted spec.to page (length out.old) input.now) out.old }
{
    let page = known_page(page)?;
    convert(&ToUtf8::new(page), input, out)
}

pub fn from_utf8(page: u32, input: &[u8], out: &mut [u8]) -> Result<usize, Refusal>
    ensures value { by_number result ≡ answer (spec.converted spec.from page (length out.old) input.now) }
    ensures out_after { out.new ≡ spec.after (spec.converted spec.from page (length out.old) input.now) out.old }
{
    let page = known_page(page)?;
    convert(&FromUtf8::new(page), input, out)
}

fn known_page(page: u32) -> Result<Page, Refusal>
    ensures { KnownPage page result }
{
    Page::try_from(page).map_err(|reason| refusal(reason, 0))
}

fn refusal(reason: Reason, place: usize) -> Refusal
    ensures { (result.reason ≡ reason) × (result.place ≡ place) }
{
    Refusal { reason, place }
}

// Either way, in a page that is known.
fn convert<W: Way>(way: &W, input: &[u8], out: &mut [u8]) -> Result<usize, Refusal>
    ensures value { by_number result ≡ answer (spec.outcome (W.step way.now) (length out.old) input.now) }
    ensures out_after { out.new ≡ spec.after (spec.outcome (W.step way.now) (length out.old) input.now) out.old }
{
    let m = measure(way, input, out.len())?;
    if out.len() < m.length {
        return Err(refusal(Reason::OutputTooShort, 0));
    }
    let run = copy_run(input, 0, m.run, out, 0);
    let each = dense(input.len(), m.length);
    write(way, each, input, run, out, m.length);
    Ok(m.length)
}

// ---- the first pass

// How much is written for a text; above the room, some number above it. And where its first run of bytes under 128 ends, which need not be
// looked for again.
#[derive(Clone, Copy, Debug, PartialEq, Eq)]
struct Measured {
    run: usize,
    length: usize,
}

fn measure<W: Way>(way: &W, input: &[u8], room: usize) -> Result<Measured, Refusal>
    requires { room < half }
    ensures { MeasuredAs (W.step way.now) room input.now result }
{
    let run = run_end(input, 0);
    let mut i = run;
    let mut n = run;
    // each turn takes another number of bytes
    while i < input.len() {
        let Some(s) = way.find(input, i) else {
            return Err(refusal(Reason::NoCharacter, i));
        };
        n = grown(n, s.made, room);
        i += s.taken;
    }
    Ok(Measured { run, length: n })
}

// A sum that grows no more once it is above the room.
fn grown(n: usize, s: usize, room: usize) -> usize
    requires { (s < half) × (room < half) }
    ensures { Grown n s room result }
{
    if n <= room { n + s } else { n }
}

// ---- the second pass

// Whether many of n bytes that become m are not under 128.
fn dense(n: usize, m: usize) -> bool {
    n / 16 < n.abs_diff(m)
}

// Writes what the text from `start` on becomes, from that place of the output on, which ends at `end`: by blocks unless each byte is to be stored
// by itself, and then the characters that are left.
fn write<W: Way>(way: &W, each: bool, input: &[u8], start: usize, out: &mut [u8], end: usize)
    requires start_in { start ≤ length input.now }
    requires ready { Ready (W.step way.now) input.now start out.old start }
    requires end_at { end ≡ start + length (spec.output (W.step way.now) 0 (drop start input.now)) }
    ensures { out.new ≡ sets out.old start (spec.output (W.step way.now) 0 (drop start input.now)) }
{
    let mut i = start;
    let mut w = start;
    let mut long = false;
    // each turn of both loops takes and makes another number of bytes
    while !each && BLOCK <= input.len() - i && BLOCK <= end - w {
        let s = store_part(way, long, input, i, out, w);
        i += s.taken;
        w += s.made;
        long = s.taken == BLOCK;
    }
    // a byte follows each of these, so that `store_one` need not ask
    while i + 1 < input.len() {
        let s = way.store_one(input, i, out, w);
        i += s.taken;
        w += s.made;
    }
    if i < input.len() {
        way.store_one(input, i, out, w);
    }
}

// Stores what stands at a place: a long run of bytes under 128, which is looked for after a whole block of them, or a block.
fn store_part<W: Way>(
    way: &W,
    long: bool,
    input: &[u8],
    i: usize,
    out: &mut [u8],
    w: usize,
) -> Taken
    requires block_in { i + block ≤ length input.now }
    requires ready { Ready (W.step way.now) input.now i out.old w }
    requires block_out { block ≤ length (spec.output (W.step way.now) 0 (drop i input.now)) }
    requires short { length out.old < half }
    ensures { Wrote (W.step way.now) input.now i out.old w result.taken result.made out.new }
{
    if long {
        let e = long_run_end(input, i);
        if i < e {
            let n = copy_run(input, i, e, out, w);
            return Taken { taken: n, made: n };
        }
    }
    store_block(way, input, i, out, w)
}

// Stores a block, of which the bytes before the first that isn't under 128 count; and the character there. What the others become overwrites
// the rest of the block.
fn store_block<W: Way>(way: &W, input: &[u8], i: usize, out: &mut [u8], w: usize) -> Taken
    requires block_in { i + block ≤ length input.now }
    requires ready { Ready (W.step way.now) input.now i out.old w }
    requires block_out { block ≤ length (spec.output (W.step way.now) 0 (drop i input.now)) }
    requires short { length out.old < half }
    ensures { Wrote (W.step way.now) input.now i out.old w result.taken result.made out.new }
{
    copy_block(input, i, out, w);
    let n = leading(input, i);
    if n == BLOCK {
        return Taken { taken: n, made: n };
    }
    let s = way.store_one(input, i + n, out, w + n);
    Taken {
        taken: n + s.taken,
        made: n + s.made,
    }
}

// Stores a block. (By a copy of its own, which neither slice can overlap: so it is read and stored in whole vectors.)
fn copy_block(input: &[u8], i: usize, out: &mut [u8], w: usize)
    requires { (i + block ≤ length input.now) × (w + block ≤ length out.old) }
    ensures { out.new ≡ sets out.old w (take block (drop i input.now)) }
{
    let mut held: [u8; BLOCK] = [0; BLOCK];
    held.copy_from_slice(&input[i..i + BLOCK]);
    copy_run(&held, 0, BLOCK, out, w);
}

// Stores the bytes from i to e; answers how many.
fn copy_run(input: &[u8], i: usize, e: usize, out: &mut [u8], w: usize) -> usize
    requires { (i ≤ e) × (e ≤ length input.now) × (w + (e - i) ≤ length out.old) }
    ensures { (out.new ≡ sets out.old w (take (e - i) (drop i input.now))) × (result ≡ e - i) }
{
    let n = e - i;
    out[w..w + n].copy_from_slice(&input[i..e]);
    n
}
