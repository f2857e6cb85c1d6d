// Every byte of every page to UTF-8 and back: a line for each from 80 on, as Unicode's facts of the page have it, and one for each other
// byte that does not stand for itself. Then what some texts that are refused get.
#![tactic(auto)]

use codepages::{from_utf8, to_utf8};
use refusals::Refusal;
use std::io;

// The code point of the one character of a text; 0 if it isn't one.
fn code_point(text: &[u8]) -> u32 {
    let Ok(text) = str::from_utf8(text) else {
        return 0;
    };
    let mut characters = text.chars();
    match (characters.next(), characters.next()) {
        (Some(c), None) => c as u32,
        _ => 0,
    }
}

// Whether a text is converted back to that one byte.
fn back(page: u32, text: &[u8], byte: u8) -> bool {
    let mut other = [0u8; 1];
    from_utf8(page, text, &mut other).is_ok() && other[0] == byte
}

fn one(rt: &impl Print, page: u32, byte: u8) -> io::Result<()> {
    let mut out = [0u8; 4];
    let Ok(n) = to_utf8(page, &[byte], &mut out) else {
        return println!(rt; "{byte:02X} -");
    };
    let text = out.get(..n).unwrap_or(&[]);
    let c = code_point(text);
    if 128 <= byte || c != u32::from(byte) {
        println!(rt; "{byte:02X} {c:04X}")?;
    }
    if !back(page, text, byte) {
        println!(rt; "not back")?;
    }
    Ok(())
}

fn page(rt: &impl Print, number: u32) -> io::Result<()> {
    println!(rt; "{number}")?;
    for byte in 0..=u8::MAX {
        one(rt, number, byte)?;
    }
    Ok(())
}

fn answer(rt: &impl Print, a: Result<usize, Refusal>) -> io::Result<()> {
    let (refusal, place, length) = match a {
        Ok(length) => (0, 0, length),
        Err(refusal) => (refusal.reason.number(), refusal.place, 0),
    };
    println!(rt; "refused {refusal} at {place}, length {length}")
}

// To windows-1252.
fn to_1252(rt: &impl Print, s: &[u8]) -> io::Result<()> {
    let mut out = [0u8; 4];
    answer(rt, from_utf8(1252, s, &mut out))
}

fn main(rt: HostRuntime) -> io::Result<()> {
    for number in 1250..=1252 {
        page(&rt, number)?;
    }
    let mut out = [0u8; 1];
    // unknown pages; a byte without an entry, before an output that is too short; too short an output
    answer(&rt, to_utf8(1249, &[129], &mut out))?;
    answer(&rt, from_utf8(1253, &[129], &mut out))?;
    answer(&rt, to_utf8(1252, &[233, 233, 129], &mut out))?;
    answer(&rt, to_utf8(1252, &[233], &mut out))?;
    answer(&rt, from_utf8(1251, &[65, 65], &mut out))?;
    // `C4 41`, cut at the end, overlong forms, a surrogate, above 10FFFF, of no page, no lead byte, a stray continuation byte
    to_1252(&rt, &[65, 196, 65])?;
    to_1252(&rt, &[65, 226, 130])?;
    to_1252(&rt, &[192, 175])?;
    to_1252(&rt, &[193, 129])?;
    to_1252(&rt, &[224, 128, 175])?;
    to_1252(&rt, &[240, 128, 128, 175])?;
    to_1252(&rt, &[237, 160, 128])?;
    to_1252(&rt, &[244, 144, 128, 128])?;
    to_1252(&rt, &[65, 240, 159, 152, 128])?;
    to_1252(&rt, &[65, 255])?;
    to_1252(&rt, &[195, 169, 128])?;
    to_1252(&rt, &[195, 169, 226, 130, 172])
}
