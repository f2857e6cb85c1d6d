// Sums over cells.
ghost use Rattle.std.specs.Prelude.{◌≡◌, ◌+◌, ◌≤◌, ◌<◌, ◌^◌, min, eqb};
ghost use Rattle.sizes.specs.Basics.{pick};
ghost use Rattle.total.specs.Total as spec;

use counts::Kind;

// How many of the cells are numbers, texts and missing; the total of the numbers, the smallest and the largest, 0 where there are none; and
// the place of the first bad cell, if there is one.
#[derive(Clone, Copy)]
pub struct Sums {
    pub bad: Option<u32>,
    pub total: u64,
    pub numbers: u32,
    pub texts: u32,
    pub missing: u32,
    pub smallest: u32,
    pub largest: u32,
}

// The smaller of two, and n where there is no other.
fn least(numbers: u32, n: u32, smallest: u32) -> u32
    ensures { result ≡ pick (eqb numbers 0) n (min n smallest) }
{
    if numbers == 0 { n } else { n.min(smallest) }
}

// One cell before others.
pub fn add(k: Kind, place: u32, s: Sums) -> Sums
    requires { (s.total ≤ 2 ^ 63) × (s.numbers + 1 < 2 ^ 32) × (s.texts + 1 < 2 ^ 32) × (s.missing + 1 < 2 ^ 32) }
    ensures { result ≡ spec.add k place s }
{
    match k {
        Kind::Text => Sums {
            texts: s.texts + 1,
            ..s
        },
        Kind::Missing => Sums {
            missing: s.missing + 1,
            ..s
        },
        Kind::Number(n) => Sums {
            total: s.total + n as u64,
            numbers: s.numbers + 1,
            smallest: least(s.numbers, n, s.smallest),
            largest: n.max(s.largest),
            ..s
        },
        Kind::Bad => Sums {
            bad: Some(place),
            ..s
        },
    }
}
