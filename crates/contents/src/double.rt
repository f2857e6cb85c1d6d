// The number that a double's bits are. No float is made from the bits of a NaN.
ghost use Rattle.std.specs.Prelude.{◌≡◌};
ghost use Rattle.contents.specs.Number as spec;

// The bits of the infinity. Above them, without the sign, are the NaNs.
const INFINITY: u64 = 9218868437227405312;

// The number; none where the bits are a NaN's.
pub fn number(bits: u64) -> Option<f64>
    ensures { spec.double_or_0 result ≡ spec.number_of bits }
{
    let magnitude = bits % 9223372036854775808;
    if magnitude <= INFINITY {
        Some(f64::from_bits(bits))
    } else {
        None
    }
}
