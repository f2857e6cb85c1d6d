// A night's members in one call: the members of a list, each read with its share of two areas (document 02, T-09).
#![tactic(auto)]

ghost use Rattle.std.specs.Prelude.{◌≡◌, ◌+◌, ◌*◌, ◌/◌, ◌<◌, ◌≤◌, IfErr};
ghost use Rattle.refusals.specs.declared.Reason.TheVariants.{BadList};
ghost use Rattle.refusals.specs.Verdicts.{code};
ghost use Rattle.grammar.specs.Laws.Member.Checked.{checked};
ghost use Rattle.members.specs.Members.{members, list_refusal, member_at, InShare};

use answer::Answer;
use layout::slice::part;
use member::read_member;
use refusals::{Reason, Verdict};
use sizes::MOST_MEMBERS;
use std::ops::Range;

// Share i of an area of so many words, which is cut into n.
fn share_at(words: usize, n: usize, i: usize) -> Range<usize>
    requires { (i < n) × (words / n * i + words / n ≤ words) }
    ensures { (result.start ≡ words / n * i) × (result.end ≡ words / n * i + words / n) }
{
    let size = words / n;
    size * i..size * i + size
}

// Reads a member with share i of n of each area.
fn read_in_share(member: &[u8], n: usize, i: usize, nodes: &mut [u32], cells: &mut [u32]) -> Answer
    requires { i < n }
    ensures { InShare (checked member.now) n i nodes.old cells.old result nodes.new cells.new }
{
    let node_share = share_at(nodes.len(), n, i);
    let cell_share = share_at(cells.len(), n, i);
    read_member(member, &mut nodes[node_share], &mut cells[cell_share])
}

// Why a whole list is refused, if it is: it has an odd number of words, or too many members.
pub fn list_refusal(list: &[u32]) -> Verdict
    ensures code { code result ≡ list_refusal list.now }
    ensures reason { IfErr result (λ r. r ≡ BadList) }
{
    let few = list.len() <= 2 * MOST_MEMBERS;
    let even = list.len() % 2 == 0;
    if few && even {
        Ok(())
    } else {
        Err(Reason::BadList)
    }
}

// Reads member i of a list with its share of each area. A member that is not inside the buffer, or not in the list, is the empty part, and
// that is refused with 2 at 0.
pub fn read_nth(
    buffer: &[u8],
    list: &[u32],
    i: usize,
    nodes: &mut [u32],
    cells: &mut [u32],
) -> Answer
    ensures { InShare (member_at buffer.now list.now i) (members list.now) i nodes.old cells.old result nodes.new cells.new }
{
    let n = list.len() / 2;
    if i < n {
        let at = 2 * i;
        let start = list[at] as usize;
        let size = list[at + 1] as usize;
        read_in_share(part(buffer, start, size), n, i, nodes, cells)
    } else {
        read_member(&buffer[..0], nodes, cells)
    }
}
