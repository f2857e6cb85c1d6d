// Alignments and margins, in the numbers of a member.
ghost use Rattle.std.specs.Prelude.{◌≡◌};
ghost use Rattle.styles.specs.Styles as spec;

use units::{Pt, pt_to_px};

// From 002's numbers to 003's. Numbers on both sides: `spec.halign` is the table of the two, and an enum between them would only be two
// tables in place of one.
pub fn halign(n: u16) -> u32
    ensures { result ≡ spec.halign n }
{
    match n {
        0 => 2,
        1 => 4,
        2 => 0,
        3 => 64173,
        4 => 61453,
        _ => 0,
    }
}

pub fn valign(n: u16) -> u32
    ensures { result ≡ spec.valign n }
{
    match n {
        0 => 1,
        1 => 3,
        2 => 0,
        _ => 0,
    }
}

// In pixels, from 20ths of a point: so few that none is too many.
pub fn margin(n: u16) -> u32
    ensures { result ≡ spec.margin n }
{
    pt_to_px(Pt(u32::from(n / 20))).unwrap().0
}
