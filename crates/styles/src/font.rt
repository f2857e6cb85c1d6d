// The size and the style of a font.
ghost use Rattle.std.specs.Prelude.{◌≡◌};
ghost use Rattle.store.specs.Values.{twos};
ghost use Rattle.styles.specs.Styles as spec;

use units::font_height;

// The height, as the bits of a float.
pub fn size(font_size: i32) -> u32
    ensures { result ≡ spec.size (twos font_size) }
{
    let height = font_height(font_size).unwrap_or(0);
    f32::to_bits(std::num::nearest_u32_to_f32(height))
}

pub fn style(weight: u16, italic: bool) -> u32
    ensures { result ≡ spec.style weight italic }
{
    let bold = 700 <= weight;
    u32::from(bold) + u32::from(italic) * 2
}
