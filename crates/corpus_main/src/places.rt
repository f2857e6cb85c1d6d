// The place after each section of a member from Header to Formats, or the refusal of the first section that is refused.
use layout::number::peek;
use layout::{LITTLE, Step};
use refusals::Refusal;
use report::LINE_BYTES;
use sections::areas::areas;
use sections::borders::borders;
use sections::footnotes::footnotes;
use sections::formats::formats;
use sections::header::{rest, start, version as known_version};
use sections::print_settings::print_settings;
use sections::table_settings::table_settings;
use sections::titles::titles;
use std::io;

fn refused(rt: &impl Print, refusal: Refusal) -> io::Result<()> {
    rt.write_all(b" ")?;
    let mut out = [0u8; LINE_BYTES];
    let k = report::refusal(refusal.reason.number(), refusal.place, &mut out);
    rt.write_all(&out[..k])
}

// What reading each section gives: a refusal is handed on to those after it.
fn steps(s: &[u8]) -> [Step; 8] {
    let st = start(s, Ok(0));
    let version = peek(s, st, LITTLE, 4);
    let header = rest(s, known_version(s, st));
    let titles = titles(s, header, version);
    let footnotes = footnotes(s, titles, version);
    let areas = areas(s, footnotes, version);
    let borders = borders(s, areas);
    let print_settings = print_settings(s, borders);
    let table_settings = table_settings(s, print_settings, version);
    let formats = formats(s, table_settings, version);
    [
        header,
        titles,
        footnotes,
        areas,
        borders,
        print_settings,
        table_settings,
        formats,
    ]
}

pub(crate) fn line(rt: &impl Print, s: &[u8]) -> io::Result<()> {
    for st in steps(s) {
        match st {
            Ok(at) => print!(rt; " {at}")?,
            Err(refusal) => return refused(rt, refusal),
        }
    }
    rt.write_all(b"\n")
}
