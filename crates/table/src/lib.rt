// Dimensions and their categories: a walk that stores each node's record in a list of words.
#![tactic(auto)]

ghost use Rattle.std.specs.Prelude.{◌≡◌, ◌≤◌, ◌-◌, drop, IfSome, Ok};
ghost use Rattle.std.proofs.lemmas.List.Edits.{sets};
ghost use Rattle.refusals.specs.Numbers.{by_number};
ghost use Rattle.refusals.specs.Verdicts.{code};
ghost use Rattle.grammar.specs.Layout.{little, one_of};
ghost use Rattle.grammar.specs.Conventions as notation;
ghost use Rattle.grammar.specs.Laws.Layout.Read.{read};
ghost use Rattle.layout.specs.Reads.{Reads, verdict};
ghost use Rattle.grammar.specs.Value.{Value};
ghost use Rattle.grammar.specs.Laws.Layout.Check.{check};
ghost use Rattle.layout.specs.Keeps.{Keeps, Each};
ghost use Rattle.layout.specs.Words.{word32};
ghost use Rattle.grammar.specs.Table as grammar;
ghost use Rattle.grammar.specs.Records.{Head};
ghost use Rattle.grammar.specs.Rules.{category_rule, categories_rule};
ghost use Rattle.table.specs.Walk.{walk_of};
ghost use Rattle.table.specs.Laws.Heads.{HeadRead, node_of, start_of, own_kind, own_word, own_children};
ghost use Rattle.table.specs.Laws.OwnPart.{OwnIs};
ghost use Rattle.table.specs.Laws.Nodes as spec;

use layout::number::{any, between, field, fixed, left, peek, unless_either};
use layout::{LITTLE, Step};
use progress::Reached;
use refusals::{Reason, Refusal, Verdict};
use sizes::{MOST_NODES, NODE_WORDS};
use value::value;

mod bytes; // the bytes of a member
mod dimension; // dimensions
mod progress; // how far a walk is

pub use bytes::Member;
pub use dimension::{Section, dimensions, most_node_words};

// The number -1, as four bytes spell it.
const MINUS_ONE: u64 = 4294967295;

// The bytes of a category after its name, and without what is below it.
const OWN_PART: usize = 15;

// The bytes that a category takes at least.
pub const LEAST_CATEGORY: usize = 16;

// What the readers of records give: the next position and how many records there are; or the refusal.
pub type Walk = Result<(usize, usize), Refusal>;

// What the bytes after a category's name say: the index of a leaf, or how many categories are below a group.
#[derive(Clone, Copy, Debug, PartialEq, Eq)]
enum Own {
    Leaf(u64),
    Group(u64),
}

impl Own {
    // 0 for a leaf or 1 for a group.
    fn kind(self) -> u32
        ensures { result ≡ own_kind self }
    {
        match self {
            Own::Leaf(_) => 0,
            Own::Group(_) => 1,
        }
    }

    // The last word of its record but one.
    fn word(self) -> u32
        ensures { result ≡ word32 (own_word self) }
    {
        let (Own::Leaf(n) | Own::Group(n)) = self;
        (n % 4294967296) as u32
    }

    // How many categories are below it.
    fn children(self) -> u64
        ensures { result ≡ own_children self }
    {
        match self {
            Own::Leaf(_) => 0,
            Own::Group(n) => n,
        }
    }
}

// What a category begins with: its own part, the length of its name, and where the categories below it start.
#[derive(Clone, Copy, Debug, PartialEq, Eq)]
struct NodeStart {
    pub own: Own,
    pub size: u32,
    pub next: usize,
}

// Where categories stand: how many levels of them are allowed, their dimension, and the node that they are below.
#[derive(Clone, Copy, Debug, PartialEq, Eq)]
struct Level {
    pub depth: usize,
    pub dimension: u32,
    pub parent: u32,
}

// ---- words

// Words from place i on, where there are such places: after one test where there are all. One store for each: with `copy_from_slice` the words
// are put into memory before, and cells take 1.3 times as long.
pub fn put<const N: usize>(words: &mut [u32], i: usize, values: &[u32; N])
    ensures { words.new ≡ sets words.old i values.now }
{
    if i < words.len() {
        if N <= words.len() - i {
            for k in 0..N {
                words[i + k] = values[k];
            }
            return;
        }
        for k in 0..N {
            if i + k < words.len() {
                words[i + k] = values[k];
            }
        }
    }
}

// The lowest 32 bits of a number.
fn word(n: usize) -> u32
    ensures { result ≡ word32 n }
{
    (n % 4294967296) as u32
}

// How many lie from a up to e, as a word.
pub fn length(a: usize, e: usize) -> u32
    ensures { result ≡ word32 (e - a) }
{
    word(between(a, e))
}

// ---- what a category begins with

// The verdict on the three bytes after a category's name.
fn known_kind(v: u64) -> Verdict
    ensures { code result ≡ verdict (one_of grammar.kinds) v }
{
    if v == 0 {
        return Ok(());
    }
    unless_either(v, 0x01_00_00, 0x01_00_01, Err(Reason::FixedDiffers))
}

// The three bytes after a category's name, as one field.
fn kind_field(s: &[u8], st: Step) -> Step
    ensures { Reads (notation.field little 3 (one_of grammar.kinds)) s.now st result }
{
    field(s, st, 3, known_kind(peek(s, st, LITTLE, 3)))
}

// A node whose name goes from `at` to `name`, once its own part ends at `end`.
fn node(own: Own, at: usize, name: usize, end: Step) -> Result<NodeStart, Refusal>
    ensures { start_of result ≡ node_of (own_kind own) at (Ok name) (own_word own) (own_children own) (by_number end) }
{
    Ok(NodeStart {
        own,
        size: length(at, name),
        next: end?,
    })
}

// What follows the name of a category, field by field: its name ends at `name`.
fn after_name(member: Member, at: usize, name: usize) -> Result<NodeStart, Refusal>
    requires { Reads (Value member.version) member.bytes.now (Ok at) (Ok name) }
    ensures { HeadRead member.entry.version member.entry.bytes.now at (read (Head member.entry.version) (drop at member.entry.bytes.now) at) (start_of result) }
{
    let s = member.bytes;
    let kind = peek(s, Ok(name), LITTLE, 3);
    let st = kind_field(s, Ok(name));
    if kind == 0 {
        let a = fixed(s, st, LITTLE, 4, 2);
        let index = peek(s, a, LITTLE, 4);
        let end = fixed(s, any(s, a, 4), LITTLE, 4, 0);
        node(Own::Leaf(index), at, name, end)
    } else {
        let a = any(s, st, 4);
        let b = fixed(s, a, LITTLE, 4, MINUS_ONE);
        let n = peek(s, b, LITTLE, 4);
        let end = any(s, b, 4);
        node(Own::Group(n), at, name, end)
    }
}

// What the bytes after a category's name say, in a part of their size, where they are as they must be.
fn own_part(bytes: &[u8]) -> Option<Own>
    ensures { IfSome result (λ o. OwnIs bytes.now (own_kind o) (own_word o) (own_children o)) }
{
    let kind = peek(bytes, Ok(0), LITTLE, 3);
    let first = peek(bytes, Ok(3), LITTLE, 4);
    let second = peek(bytes, Ok(7), LITTLE, 4);
    let third = peek(bytes, Ok(11), LITTLE, 4);
    if kind == 0 {
        if first == 2 && third == 0 {
            return Some(Own::Leaf(second));
        }
    } else if known_kind(kind).is_ok() && second == MINUS_ONE {
        return Some(Own::Group(third));
    }
    None
}

// A category without what is below it. Where all the bytes after its name are there, as many for a leaf as for a group, they are looked at
// after one test, in a part of that size; where one of them is not as it must be, field by field.
fn head(member: Member, at: usize) -> Result<NodeStart, Refusal>
    ensures { HeadRead member.entry.version member.entry.bytes.now at (read (Head member.entry.version) (drop at member.entry.bytes.now) at) (start_of result) }
{
    let s = member.bytes;
    let name = value(s, Ok(at), member.version)?;
    if OWN_PART <= left(s, name) {
        let next = name + OWN_PART;
        if let Some(own) = own_part(&s[name..next]) {
            return node(own, at, name, Ok(next));
        }
    }
    after_name(member, at, name)
}

// ---- categories

// A category, and its nodes from the number `from.used` on. Its own record is stored once those below it are read, since it says how many
// nodes they are.
#[cycle(below_categories_category)]
fn category(
    member: Member,
    from: Reached,
    level: Level,
    nodes: &mut [u32],
) -> Result<Reached, Refusal>
    ensures { Keeps member.entry.bytes.now (spec.Node member.entry.version level.depth level.dimension level.parent from.at (from.used, nodes.old)) (check (category_rule member.entry.version level.depth from.used) (drop from.at member.entry.bytes.now) from.at) (spec.walked (walk_of result) nodes.new) }
{
    if level.depth == 0 || MOST_NODES <= from.used {
        return Err(Refusal {
            reason: Reason::Limit,
            place: from.at,
        });
    }
    let start = head(member, from.at)?;
    let own = start.own;
    let first = Reached {
        at: start.next,
        used: from.used + 1,
    };
    let inner = Level {
        depth: level.depth - 1,
        dimension: level.dimension,
        parent: from.used as u32,
    };
    let end = below(member, first, inner, own.children(), nodes)?;
    put(
        nodes,
        NODE_WORDS * from.used,
        &[
            own.kind(),
            level.dimension,
            level.parent,
            word(from.at),
            start.size,
            own.word(),
            length(from.used, end.used),
        ],
    );
    Ok(end)
}

// The categories below one: a leaf has none, and no call is made for it.
#[cycle(below_categories_category)]
fn below(
    member: Member,
    from: Reached,
    level: Level,
    count: u64,
    nodes: &mut [u32],
) -> Result<Reached, Refusal>
    ensures { Keeps member.entry.bytes.now (Each (spec.Node member.entry.version level.depth level.dimension level.parent) from.at (from.used, nodes.old)) (check (categories_rule member.entry.version level.depth from.used count) (drop from.at member.entry.bytes.now) from.at) (spec.walked (walk_of result) nodes.new) }
{
    if count == 0 {
        return Ok(from);
    }
    categories(member, from, level, count, nodes)
}

// As many categories as `count` says, one after the other.
#[cycle(below_categories_category)]
fn categories(
    member: Member,
    from: Reached,
    level: Level,
    count: u64,
    nodes: &mut [u32],
) -> Result<Reached, Refusal>
    ensures { Keeps member.entry.bytes.now (Each (spec.Node member.entry.version level.depth level.dimension level.parent) from.at (from.used, nodes.old)) (check (categories_rule member.entry.version level.depth from.used count) (drop from.at member.entry.bytes.now) from.at) (spec.walked (walk_of result) nodes.new) }
{
    let mut reached = from;
    for _ in 0..count {
        reached = category(member, reached, level, nodes)?;
    }
    Ok(reached)
}
