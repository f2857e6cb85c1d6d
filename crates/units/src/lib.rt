// Points, pixels, and the height of a font. Points and pixels are types of their own: only the two conversions go from one to the other.
#![tactic(auto)]

ghost use Rattle.std.specs.Prelude.{◌≡◌, IfErr};
ghost use Rattle.refusals.specs.Verdicts.{Refuses};
ghost use Rattle.units.specs.Units as spec;

use refusals::{Reason, Refusal};

#[derive(Clone, Copy, Debug, PartialEq, Eq, PartialOrd, Ord)]
pub struct Pt(pub u32);

#[derive(Clone, Copy, Debug, PartialEq, Eq, PartialOrd, Ord)]
pub struct Px(pub u32);

// Why a number has no counterpart. Nothing of a file is read, so the place is 0.
const NO_NUMBER: Refusal = Refusal {
    reason: Reason::Limit,
    place: 0,
};

pub fn pt_to_px(points: Pt) -> Result<Px, Refusal>
    ensures answer { spec.pixels_of result ≡ spec.in_pixels points }
    ensures reason { IfErr result (λ e. Refuses e.reason) }
{
    let n = points.0;
    if n <= 1000000 {
        Ok(Px((n * 133 + 99) / 100))
    } else {
        Err(NO_NUMBER)
    }
}

pub fn px_to_pt(pixels: Px) -> Result<Pt, Refusal>
    ensures answer { spec.points_of result ≡ spec.in_points pixels }
    ensures reason { IfErr result (λ e. Refuses e.reason) }
{
    let n = pixels.0;
    if n <= 1330000 {
        Ok(Pt(n * 100 / 133))
    } else {
        Err(NO_NUMBER)
    }
}

// The height of a font, in 96ths of an inch: its size is the negative of that.
pub fn font_height(size: i32) -> Result<u32, Refusal>
    ensures answer { spec.height_of result ≡ spec.height size }
    ensures reason { IfErr result (λ e. Refuses e.reason) }
{
    if size < 0 {
        Ok(size.unsigned_abs())
    } else {
        Err(NO_NUMBER)
    }
}
