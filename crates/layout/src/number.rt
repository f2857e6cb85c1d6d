// Numbers: what comes next, and past it.
ghost use Rattle.std.specs.Prelude.{◌≡◌, [], ◌∷◌, ◌≤◌, ◌-◌, min, length, take, drop, Err, IfErr};
ghost use Rattle.sizes.specs.Basics.{pick, among};
ghost use Rattle.grammar.specs.Layout.{little, big, any_number, the_number, a_version, a_bool, at_most, one_of, one_of_but, undigits};
ghost use Rattle.grammar.specs.Conventions as grammar;
ghost use Rattle.refusals.specs.Numbers.{number as number_of, by_number};
ghost use Rattle.refusals.specs.declared.Reason.TheVariants.{Limit};
ghost use Rattle.refusals.specs.Verdicts.{code};
ghost use Rattle.layout.specs.Reads as spec;
ghost use Rattle.layout.specs.Reads.{Reads, order, verdict};

use crate::Step;
use refusals::{Reason, Refusal, Verdict};

// From a to e; 0 where e lies before a.
pub fn between(a: usize, e: usize) -> usize
    ensures { result ≡ e - a }
{
    e.saturating_sub(a)
}

// x, as far as limit.
pub fn at_most(x: usize, limit: usize) -> usize
    ensures { result ≡ min x limit }
{
    x.min(limit)
}

// How many bytes there are from a position on.
pub fn left(s: &[u8], at: usize) -> usize
    ensures { result ≡ length s.now - at }
{
    between(at, s.len())
}

// The number that w bytes spell, the lowest first.
fn low_first(s: &[u8], at: usize, w: usize) -> u64
    requires { (w ≤ length s.now - at) × (w ≤ 8) }
    ensures { result ≡ undigits little (take w (drop at s.now)) }
{
    let mut v: u64 = 0;
    let mut i = w;
    while 0 < i {
        i -= 1;
        v = v * 256 + s[at + i] as u64;
    }
    v
}

// The number that w bytes spell, the highest first.
fn high_first(s: &[u8], at: usize, w: usize) -> u64
    requires { (w ≤ length s.now - at) × (w ≤ 8) }
    ensures { result ≡ undigits big (take w (drop at s.now)) }
{
    let mut v: u64 = 0;
    for i in 0..w {
        v = v * 256 + s[at + i] as u64;
    }
    v
}

// A width that a 64-bit number has: a greater one counts as 8.
pub fn width(w: usize) -> usize
    ensures { result ≡ min w 8 }
{
    at_most(w, 8)
}

fn number(s: &[u8], st: Step, high: bool, w: usize) -> u64
    requires { w ≤ 8 }
    ensures { result ≡ spec.peek (order high) w s.now (by_number st) }
{
    let Ok(at) = st else {
        return 0;
    };
    let fits = w <= left(s, at);
    if fits {
        if high {
            high_first(s, at, w)
        } else {
            low_first(s, at, w)
        }
    } else {
        0
    }
}

// The number of w bytes that comes next; 0 where there is none.
pub fn peek(s: &[u8], st: Step, high: bool, w: usize) -> u64
    ensures { result ≡ spec.peek (order high) (min w 8) s.now (by_number st) }
{
    number(s, st, high, width(w))
}

// Past w bytes, which get the refusal of their verdict. Each arm returns: where their values meet first, the compiler computes the next
// position from the tests without a branch, and a field is not read before the tests of those before it are done.
pub fn field(s: &[u8], st: Step, w: usize, verdict: Verdict) -> Step
    ensures { by_number result ≡ spec.field w (code verdict) s.now (by_number st) }
{
    let at = st?;
    let inside = w <= left(s, at);
    if inside {
        match Reason::why(verdict) {
            None => return Ok(at + w),
            Some(reason) => return Err(Refusal { reason, place: at }),
        }
    }
    Err(Refusal {
        reason: Reason::DoesNotFit,
        place: at,
    })
}

// ---- verdicts

// Fine where a test is passed; else for that reason.
pub fn unless(passed: bool, reason: Reason) -> Verdict
    ensures code { code result ≡ pick passed 0 (number_of reason) }
    ensures reason { IfErr result (λ r. r ≡ reason) }
{
    if passed { Ok(()) } else { Err(reason) }
}

fn only(v: u64, n: u64) -> Verdict
    ensures { code result ≡ verdict (the_number n) v }
{
    unless(v == n, Reason::FixedDiffers)
}

fn flag(v: u64) -> Verdict
    ensures { code result ≡ verdict a_bool v }
{
    unless(v <= 1, Reason::NotBool)
}

pub fn limit(v: u64, n: u64) -> Verdict
    ensures code { code result ≡ verdict (at_most n) v }
    ensures reason { IfErr result (λ r. r ≡ Limit) }
{
    unless(v <= n, Reason::Limit)
}

// Fine for one of two numbers, and that verdict for any other.
pub fn unless_either(v: u64, a: u64, b: u64, otherwise: Verdict) -> Verdict
    ensures code { code result ≡ pick (among v (a ∷ b ∷ [])) 0 (code otherwise) }
    ensures reason { IfErr result (λ r. otherwise ≡ Err r) }
{
    if v == a || v == b {
        return Ok(());
    }
    otherwise
}

fn known(v: u64, a: u64, b: u64) -> Verdict
    ensures { code result ≡ verdict (a_version (a ∷ b ∷ [])) v }
{
    unless_either(v, a, b, Err(Reason::Version))
}

fn either(v: u64, a: u64, b: u64) -> Verdict
    ensures { code result ≡ verdict (one_of (a ∷ b ∷ [])) v }
{
    unless_either(v, a, b, Err(Reason::FixedDiffers))
}

// The verdict on one of two numbers, of which the first is left out in other versions.
fn either_but(v: u64, a: u64, b: u64, without: bool) -> Verdict
    ensures { code result ≡ verdict (one_of_but (a ∷ b ∷ []) (pick without (a ∷ []) [])) v }
{
    if v == a {
        return unless(!without, Reason::Version);
    }
    unless(v == b, Reason::FixedDiffers)
}

// ---- fields

// A field of w bytes of any value: the same in either order.
pub fn any(s: &[u8], st: Step, w: usize) -> Step
    ensures low { Reads (grammar.field little w any_number) s.now st result }
    ensures high { Reads (grammar.field big w any_number) s.now st result }
{
    field(s, st, w, Ok(()))
}

// The number n in w bytes.
pub fn fixed(s: &[u8], st: Step, high: bool, w: usize, n: u64) -> Step
    ensures { Reads (grammar.field (order high) (min w 8) (the_number n)) s.now st result }
{
    let w = width(w);
    field(s, st, w, only(number(s, st, high, w), n))
}

pub fn boolean(s: &[u8], st: Step) -> Step
    ensures { Reads grammar.bool s.now st result }
{
    field(s, st, 1, flag(number(s, st, false, 1)))
}

// One of two versions, in four bytes.
pub fn version(s: &[u8], st: Step, a: u64, b: u64) -> Step
    ensures { Reads (grammar.field little 4 (a_version (a ∷ b ∷ []))) s.now st result }
{
    field(s, st, 4, known(number(s, st, false, 4), a, b))
}

// A count of four bytes, which is at most n.
pub fn count(s: &[u8], st: Step, n: u64) -> Step
    ensures { Reads (grammar.field little 4 (at_most n)) s.now st result }
{
    field(s, st, 4, limit(number(s, st, false, 4), n))
}

// One of two bytes, of which the first may be left out in this version.
pub fn one_of_two_but(s: &[u8], st: Step, a: u64, b: u64, without: bool) -> Step
    ensures { Reads (grammar.field little 1 (one_of_but (a ∷ b ∷ []) (pick without (a ∷ []) []))) s.now st result }
{
    field(s, st, 1, either_but(number(s, st, false, 1), a, b, without))
}

// One of two bytes.
pub fn one_of_two(s: &[u8], st: Step, a: u64, b: u64) -> Step
    ensures { Reads (grammar.field little 1 (one_of (a ∷ b ∷ []))) s.now st result }
{
    field(s, st, 1, either(number(s, st, false, 1), a, b))
}
