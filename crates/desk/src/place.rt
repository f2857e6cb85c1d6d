// Where the name of a node stands in its member.
ghost use Rattle.std.specs.Prelude.{◌≡◌, ◌+◌, length, leb};
ghost use Rattle.sizes.specs.Basics.{pick};
ghost use Rattle.desk.specs.Desk.{filled_of, name_place_of};

use crate::filled;
use sizes::{NAME_LENGTH, NAME_PLACE, NODE_WORDS};

// A place, if that many bytes from there on lie inside the member, else 0.
fn inside(member: &[u8], place: u32, n: u32) -> usize
    ensures { result ≡ pick (leb (place + n) (length member.now)) place 0 }
{
    let fits = place as usize + n as usize <= member.len();
    if fits { place as usize } else { 0 }
}

// The place of the name of node i; 0 if there is no record i, or if it points outside the member.
fn place_of(member: &[u8], nodes: &[u32], i: usize) -> usize
    ensures { result ≡ name_place_of member.now nodes.now i }
{
    if i < nodes.len() / NODE_WORDS {
        let at = NODE_WORDS * i;
        inside(member, nodes[at + NAME_PLACE], nodes[at + NAME_LENGTH])
    } else {
        0
    }
}

// The same of a node area with that many records.
pub fn node_name_place(member: &[u8], area: &[u32], count: usize, i: usize) -> usize
    ensures { result ≡ name_place_of member.now (filled_of area.now count) i }
{
    let words = filled(area, count);
    place_of(member, words, i)
}
