// For each member that an argument names: its name and the test program's line. For each one after the argument `--sections`: its name
// and the places of its sections, within its first 65,536 bytes.
#![tactic(auto)]

mod places;

use report::LINE_BYTES;
use sizes::{CELL_AREA, NODE_AREA};
use std::env::FillError;
use std::io;
use std::rt::{Env, Files};

// The areas for the records of any member, which are not cleared between members: that would take as long as all the rest.
#[derive(Drop)]
struct Areas {
    nodes: [u32; NODE_AREA],
    cells: [u32; CELL_AREA],
}

fn named(
    rt: &(impl Files + Print + Eprint),
    name: &[u8],
    sections: bool,
    areas: &mut Areas,
) -> io::Result<()> {
    let mut buf = [0u8; input::LARGE];
    let Some(got) = input::read_file(rt, name, &mut buf)? else {
        return Ok(());
    };
    rt.write_all(name)?;
    let n = got.bytes;
    if sections {
        return places::line(rt, &buf[..n]);
    }
    rt.write_all(b" ")?;
    let mut out = [0u8; LINE_BYTES];
    if got.more {
        let k = report::refusal(1, 0, &mut out);
        return rt.write_all(&out[..k]);
    }
    let k = report::member_line_in(&buf[..n], &mut areas.nodes, &mut areas.cells, &mut out);
    rt.write_all(&out[..k])
}

// The argument, and whether sections are asked for after it.
fn argument(
    rt: &(impl Files + Print + Eprint),
    name: &[u8],
    sections: bool,
    areas: &mut Areas,
) -> io::Result<bool> {
    if matches!(name, b"--sections") {
        return Ok(true);
    }
    named(rt, name, sections, areas)?;
    Ok(sections)
}

fn main(rt: HostRuntime) -> io::Result<()> {
    let mut areas = Areas {
        nodes: [0; NODE_AREA],
        cells: [0; CELL_AREA],
    };
    let mut sections = false;
    for i in 1..usize::MAX {
        let mut name = [0u8; input::SMALL];
        let n = match rt.arg(i, &mut name) {
            Ok(n) => n,
            // one that is too long names no file
            Err(FillError::TooLong) => 0,
            Err(FillError::NotPresent) => break,
        };
        sections = argument(&rt, &name[..n], sections, &mut areas)?;
    }
    Ok(())
}
