// Colors: of a background, and of a border.
ghost use Rattle.std.specs.Prelude.{◌≡◌, min};
ghost use Rattle.styles.specs.Styles as spec;

use look::AreaColor;

pub fn red(color: u32) -> u8
    ensures { result ≡ spec.red color }
{
    color.to_le_bytes()[0]
}

pub fn green(color: u32) -> u8
    ensures { result ≡ spec.green color }
{
    color.to_le_bytes()[1]
}

pub fn blue(color: u32) -> u8
    ensures { result ≡ spec.blue color }
{
    color.to_le_bytes()[2]
}

// A part of two colors, mixed. No shading is above 10 in a look that is accepted.
fn mixed(shading: u8, part10: u8, part0: u8) -> u8
    ensures { result ≡ spec.mixed (min shading 10) part10 part0 }
{
    let k = u32::from(shading.min(10));
    ((k * u32::from(part10) + (10 - k) * u32::from(part0)) / 10) as u8
}

pub fn background(x: AreaColor) -> u32
    ensures { result ≡ spec.background x }
{
    let r = mixed(x.shading, red(x.color10), red(x.color0));
    let g = mixed(x.shading, green(x.color10), green(x.color0));
    let b = mixed(x.shading, blue(x.color10), blue(x.color0));
    u32::from_le_bytes([r, g, b, 0])
}

// Opaque, with the red part highest.
pub fn opaque(color: u32) -> u32
    ensures { result ≡ spec.opaque color }
{
    u32::from_be_bytes([0xff, red(color), green(color), blue(color)])
}
