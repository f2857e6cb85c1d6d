// Dimensions: a name, properties and categories; when one ends, its n is known and its leaf indexes are tested.
ghost use Rattle.std.specs.Prelude.{◌≡◌, ◌<◌, ◌≤◌, ◌+◌, ◌*◌, length, drop};
ghost use Rattle.sizes.specs.Sizes.{most_dimensions};
ghost use Rattle.refusals.specs.Numbers.{by_number};
ghost use Rattle.layout.specs.Reads.{Reads};
ghost use Rattle.grammar.specs.Rule.{items};
ghost use Rattle.grammar.specs.Laws.Layout.Check.{check};
ghost use Rattle.layout.specs.Keeps.{Keeps, Each};
ghost use Rattle.grammar.specs.Table as grammar;
ghost use Rattle.grammar.specs.Rules.{dimension_rule, dimensions_rule};
ghost use Rattle.table.specs.Walk.{walk_of};
ghost use Rattle.table.specs.Laws.Dims as spec;
ghost use Rattle.table.specs.Laws.Within.{Room, Scratch, needed, within};

use crate::progress::Reached;
use crate::{LEAST_CATEGORY, Level, Member, categories, length, put, word};
use layout::number::{any, between, boolean, count, fixed, left, peek};
use layout::{LITTLE, Step};
use once::check_leaves;
use refusals::{Reason, Refusal};
use sizes::{
    CATEGORY_DEPTH, DIMENSION_AREA, DIMENSION_WORDS, MEMBER_BYTES, MOST_DIMENSIONS, MOST_NODES,
    NO_PARENT, NODE_WORDS,
};
use value::value;

const LIMIT: u64 = MOST_DIMENSIONS as u64;

// What a section gives: the next position, how many dimensions there are, and how many nodes they have.
#[derive(Clone, Copy, Debug, PartialEq, Eq)]
pub struct Section {
    pub end: usize,
    pub dimensions: usize,
    pub nodes: usize,
}

fn properties(s: &[u8], st: Step) -> Step
    ensures { Reads grammar.DimProperties s.now st result }
{
    let st = any(s, st, 1);
    let st = any(s, st, 1);
    let st = any(s, st, 4);
    let st = boolean(s, st);
    let st = boolean(s, st);
    let st = fixed(s, st, LITTLE, 1, 0x01);
    any(s, st, 4)
}

// Dimension i, whose name has that place and length, ends at `end`; its nodes have the numbers from `used` on.
fn close(
    i: usize,
    at: usize,
    size: u32,
    used: usize,
    end: Reached,
    nodes: &[u32],
    dims: &mut [u32; DIMENSION_AREA],
) -> Result<Reached, Refusal>
    requires { i < most_dimensions }
    ensures { spec.Closed i at size used end.at end.used nodes.now dims.old (walk_of result) dims.new }
{
    let leaves = check_leaves(nodes, used, between(used, end.used));
    if let Some(place) = leaves.bad {
        return Err(Refusal {
            reason: Reason::LeafIndex,
            place,
        });
    }
    put(
        dims,
        DIMENSION_WORDS * i,
        &[word(at), size, word(leaves.count), word(used)],
    );
    Ok(end)
}

// Dimension i.
fn dimension(
    member: Member,
    i: usize,
    from: Reached,
    nodes: &mut [u32],
    dims: &mut [u32; DIMENSION_AREA],
) -> Result<Reached, Refusal>
    requires { (i < most_dimensions) × Room spec.node_record_sizes (length nodes.old) from.used from.at member.bytes.now }
    ensures { Keeps member.entry.bytes.now (spec.Dim member.entry.version from.at (spec.kept i from.used nodes.old dims.old)) (check (dimension_rule member.entry.version from.used) (drop from.at member.entry.bytes.now) from.at) (spec.dims_out (i + 1) (walk_of result) nodes.new dims.new) }
{
    let s = member.bytes;
    let name = value(s, Ok(from.at), member.version)?;
    let before = properties(s, Ok(name));
    let n = peek(s, before, LITTLE, 4);
    let first = Reached {
        at: any(s, before, 4)?,
        used: from.used,
    };
    let level = Level {
        depth: CATEGORY_DEPTH,
        dimension: i as u32,
        parent: NO_PARENT,
    };
    let end = categories(member, first, level, n, nodes)?;
    close(
        i,
        from.at,
        length(from.at, name),
        from.used,
        end,
        nodes,
        dims,
    )
}

// n dimensions.
fn all(
    member: Member,
    at: usize,
    n: usize,
    nodes: &mut [u32],
    dims: &mut [u32; DIMENSION_AREA],
) -> Result<Reached, Refusal>
    requires { (n ≤ most_dimensions) × Room spec.node_record_sizes (length nodes.old) 0 at member.bytes.now }
    ensures { Keeps member.entry.bytes.now (Each (spec.Dim member.entry.version) at (spec.kept 0 0 nodes.old dims.old)) (check (items {n = n} (spec.next_dim member.entry.version)) (drop at member.entry.bytes.now) at) (spec.dims_out n (walk_of result) nodes.new dims.new) }
{
    let mut reached = Reached { at, used: 0 };
    for i in 0..n {
        reached = dimension(member, i, reached, nodes, dims)?;
    }
    Ok(reached)
}

// The section, with room for its records.
fn with_room(
    member: Member,
    at: usize,
    nodes: &mut [u32],
    dims: &mut [u32; DIMENSION_AREA],
) -> Result<Section, Refusal>
    requires { Room spec.node_record_sizes (length nodes.old) 0 at member.bytes.now }
    ensures { Keeps member.entry.bytes.now (spec.AllDims member.entry.version at nodes.old dims.old) (check (dimensions_rule member.entry.version) (drop at member.entry.bytes.now) at) (spec.section_out (by_number result) nodes.new dims.new) }
{
    let n = peek(member.bytes, Ok(at), LITTLE, 4);
    let first = count(member.bytes, Ok(at), LIMIT)?;
    let dimensions = n as usize;
    let reached = all(member, first, dimensions, nodes, dims)?;
    Ok(Section {
        end: reached.at,
        dimensions,
        nodes: reached.used,
    })
}

// How many words the node records of n bytes have at most.
pub fn most_node_words(n: usize) -> usize
    ensures { result ≡ needed spec.node_record_sizes n }
{
    NODE_WORDS * (n / LEAST_CATEGORY).min(MOST_NODES)
}

// The number of dimensions at a position, and the dimensions. Refused besides: more bytes than a member has, 1 at 0; a list that is too
// short for the node records of the bytes from there on, 12 at 0. The words are scratch: after a refusal they may hold anything.
pub fn dimensions(
    s: &[u8],
    at: usize,
    nodes: &mut [u32],
    dims: &mut [u32; DIMENSION_AREA],
    version: u64,
) -> Result<Section, Refusal>
    ensures dimensions { Keeps s.now (spec.AllDims version at nodes.old dims.old) (within spec.node_record_sizes s.now at (length nodes.old) (check (dimensions_rule version) (drop at s.now) at)) (spec.section_out (by_number result) nodes.new dims.new) }
    ensures scratch { Scratch nodes.old nodes.new }
{
    if MEMBER_BYTES < s.len() {
        return Err(Refusal {
            reason: Reason::TooLong,
            place: 0,
        });
    }
    if nodes.len() < most_node_words(left(s, at)) {
        return Err(Refusal {
            reason: Reason::NodeArea,
            place: 0,
        });
    }
    with_room(Member { bytes: s, version }, at, nodes, dims)
}
