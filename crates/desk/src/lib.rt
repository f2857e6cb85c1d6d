// The member and its filled node area, kept together (01, "What the caller gets"). The methods of `Desk` are thin; the work is in
// `filled`, `name_of` and `after_of`, which take slices.
#![tactic(auto)]

pub mod place; // where a name stands

ghost use Rattle.std.specs.Prelude.{◌≡◌, ◌/◌, length};
ghost use Rattle.sizes.specs.Sizes.{node_words};
ghost use Rattle.desk.specs.Desk.{filled_of, name_of, after_of};

use member::part;
use sizes::{NAME_LENGTH, NAME_PLACE, NODE_SIZE, NODE_WORDS};

// The lent member, and of the node area only the words filled.
#[derive(Clone, Copy)]
pub struct Desk<'a, 'b> {
    member: &'a [u8],
    nodes: &'b [u32],
}

// The words of that many node records. An area that has fewer was not filled with so many: the empty part. The test divides,
// since the product need not fit.
pub fn filled(area: &[u32], count: usize) -> &[u32]
    ensures { result.now ≡ filled_of area.now count }
{
    let records = area.len() / NODE_WORDS;
    if count <= records {
        let end = NODE_WORDS * count;
        &area[..end]
    } else {
        &area[..0]
    }
}

// The name of node i: the part of the member that its record points to; the empty part if there is no whole record i.
fn name_of<'a, 'b>(member: &'a [u8], nodes: &'b [u32], i: usize) -> &'a [u8]
    ensures { result.now ≡ name_of member.now nodes.now i }
{
    if i < nodes.len() / NODE_WORDS {
        let at = NODE_WORDS * i;
        part(
            member,
            nodes[at + NAME_PLACE] as usize,
            nodes[at + NAME_LENGTH] as usize,
        )
    } else {
        &member[..0]
    }
}

// The same of a member and a node area with that many records, for callers that hold no Desk.
pub fn node_name<'a, 'b>(member: &'a [u8], area: &'b [u32], count: usize, i: usize) -> &'a [u8]
    ensures { result.now ≡ name_of member.now (filled_of area.now count) i }
{
    Desk::open(member, area, count).name(i)
}

// The node after node i's group, of that many nodes: as many further as its record says it contains. `count` where there is none, and
// for a word that no record has: 0, or more than there are nodes.
fn after_of(nodes: &[u32], count: usize, i: usize) -> usize
    ensures { result ≡ after_of nodes.now count i }
{
    let records = nodes.len() / NODE_WORDS;
    if i < records {
        let n = nodes[NODE_WORDS * i + NODE_SIZE] as usize;
        if 1 <= n && i + n <= count {
            return i + n;
        }
    }
    count
}

// The same of a node area with that many records. From any i below `count` it leads on, at most to `count`.
pub fn node_after(area: &[u32], count: usize, i: usize) -> usize
    ensures { result ≡ after_of (filled_of area.now count) count i }
{
    after_of(filled(area, count), count, i)
}

// The same of all the records that the words are.
fn after_in(nodes: &[u32], i: usize) -> usize
    ensures { result ≡ after_of nodes.now (length nodes.now / node_words) i }
{
    after_of(nodes, nodes.len() / NODE_WORDS, i)
}

impl<'a, 'b> Desk<'a, 'b> {
    // Keeps the two together. Of the area only the words of `count` records go in, so no name comes from beyond them.
    pub fn open(member: &'a [u8], area: &'b [u32], count: usize) -> Desk<'a, 'b>
        ensures { (result.member ≡ member.entry) × (result.nodes.now ≡ filled_of area.now count) }
    {
        let nodes = filled(area, count);
        Desk { member, nodes }
    }

    // The name of node i.
    pub fn name(self, i: usize) -> &'a [u8]
        ensures { result.now ≡ name_of self.entry.member.now self.entry.nodes.now i }
    {
        name_of(self.member, self.nodes, i)
    }

    // The node after node i's group; the number of nodes where there is none.
    pub fn after(self, i: usize) -> usize
        ensures { result ≡ after_of self.entry.nodes.now (length self.entry.nodes.now / node_words) i }
    {
        after_in(self.nodes, i)
    }
}
