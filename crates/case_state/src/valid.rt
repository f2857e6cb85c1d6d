// Whether a state is one that a start and calls can leave: a state with a number out of range is 21. `specs/Cursor.antt` says what is asked
// of one (`Good`), and `proofs/Laws/Valid.antt` proves that these tests ask just that.
#![tactic(auto, unfolding(sizes::specs::Basics::pick, crate::specs::Tests::counts_ok, crate::specs::Tests::gather_ok, crate::specs::Tests::block_ok, crate::specs::Tests::acting_ok, crate::specs::Tests::ended_ok, crate::specs::Tests::bad_ok, crate::specs::Tests::full_ok, crate::specs::Tests::stop_ok, crate::specs::Tests::resting_ok, crate::specs::Tests::cursor_ok, crate::specs::Tests::state_ok))]

ghost use Rattle.std.specs.Prelude.{◌≡◌, ◌-◌, ◌^◌, ◌≤◌, ◌<◌, min, eqb, ltb, leb};
ghost use Rattle.std.specs.List.{list_all};
ghost use Rattle.case_stream.specs.Stream.{string_kind};
ghost use Rattle.case_state.specs.Tests as spec;

use crate::powers::power;
use crate::{
    ACTS, BAD_CODE, BLOCK, Cursor, ENDED, GATHERS, LIMIT, MOST_BIAS, MOST_KINDS, STRING, State,
    TOO_MANY,
};

// Whether x has at most n bytes.
fn below(x: u64, n: usize) -> bool
    requires { n ≤ 8 }
    ensures { result ≡ ltb x (256 ^ n) }
{
    n == 8 || x < power(n)
}

// No code or byte of a block is held.
fn nothing_held(c: Cursor) -> bool
    ensures { result ≡ spec.nothing_held c }
{
    c.left == 0 && c.codes == 0 && c.filled == 0 && c.block == 0
}

// Whether so many elements can stand before a code at this place, with as many blocks in its group, that `at` is the position in the case.
fn counts_ok(count: usize, at: usize, place: u32, taken: u32) -> bool
    requires { (at < count) × (count ≤ 256) }
    ensures { result ≡ spec.counts_ok count at place taken }
{
    let in_group = place % 8;
    let whole = (taken - taken % 8) as usize;
    let first = (place - in_group) as usize + 8;
    if whole < first {
        return false;
    }
    let blocks = (whole - first) / 8;
    let rounds = blocks.saturating_sub(at).div_ceil(count);
    blocks <= in_group as usize && at + count * rounds <= place as usize
}

fn gather_ok(c: Cursor) -> bool
    ensures { result ≡ spec.gather_ok c }
{
    let held = c.taken % 8;
    c.left == held as usize
        && c.at <= (c.taken - held) as usize
        && c.place == 0
        && c.filled == 0
        && c.block == 0
        && below(c.codes, c.left)
}

// Whether a block is begun only at a 253.
fn block_ok(c: Cursor) -> bool
    ensures { result ≡ spec.block_ok c }
{
    c.filled == 0 || c.codes % 256 == BLOCK as u64
}

fn acting_ok(count: usize, c: Cursor) -> bool
    requires { (c.at < count) × (count ≤ 256) }
    ensures { result ≡ spec.acting_ok count c }
{
    c.left == 8 - (c.place % 8) as usize
        && c.filled == (c.taken % 8) as usize
        && block_ok(c)
        && below(c.block, c.filled)
        && below(c.codes, c.left)
        && counts_ok(count, c.at, c.place, c.taken)
}

// A 252 has acted.
fn ended_ok(c: Cursor) -> bool
    ensures { result ≡ spec.ended_ok c }
{
    c.place == 0 && c.taken % 8 == 0 && c.at < c.taken as usize
}

fn bad_ok(count: usize, c: Cursor) -> bool
    requires { (c.at < count) × (count ≤ 256) }
    ensures { result ≡ spec.bad_ok count c }
{
    c.taken % 8 == 0 && counts_ok(count, c.at, c.place, c.taken)
}

fn full_ok(c: Cursor) -> bool
    ensures { result ≡ spec.full_ok c }
{
    c.place == 0 && c.taken == LIMIT
}

fn cursor_ok(count: usize, c: Cursor) -> bool
    requires { count ≤ 256 }
    ensures { result ≡ spec.cursor_ok count c }
{
    c.at < count
        && match c.phase {
            GATHERS => gather_ok(c),
            ACTS => acting_ok(count, c),
            ENDED => nothing_held(c) && ended_ok(c),
            BAD_CODE => nothing_held(c) && bad_ok(count, c),
            TOO_MANY => nothing_held(c) && full_ok(c),
            _ => false,
        }
}

// Whether each kind of some is a known one.
fn known(kinds: &[u8]) -> bool
    ensures { result ≡ list_all (λ kind. leb kind string_kind) kinds.now }
{
    kinds.iter().all(|kind| *kind <= STRING)
}

fn zeros(kinds: &[u8]) -> bool
    ensures { result ≡ list_all (λ kind. eqb kind 0) kinds.now }
{
    kinds.iter().all(|kind| *kind == 0)
}

// Whether the first `count` kinds are known ones.
pub fn kinds_ok(count: usize, kinds: &[u8; 256]) -> bool
    ensures { result ≡ spec.kinds_ok (min count 256) kinds.now }
{
    known(&kinds[..count.min(MOST_KINDS)])
}

// Whether the kinds beyond the first `count` are 0.
fn rest_ok(count: usize, kinds: &[u8; 256]) -> bool
    requires { count ≤ 256 }
    ensures { result ≡ spec.rest_ok (256 - count) kinds.now }
{
    zeros(&kinds[count..])
}

pub fn state_ok(s: State) -> bool
    ensures { result ≡ spec.state_ok s }
{
    s.count <= MOST_KINDS
        && s.bias <= MOST_BIAS
        && kinds_ok(s.count, &s.kinds)
        && rest_ok(s.count, &s.kinds)
        && cursor_ok(s.count, s.cursor)
}
