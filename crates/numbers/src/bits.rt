// The bits of a real, and a real from its bits.
ghost use Rattle.std.specs.Prelude.{◌≡◌};
ghost use Rattle.std.specs.Float.Ieee as Ieee;
ghost use Rattle.std.specs.Float.{binary64};
ghost use Rattle.numbers.specs.Bits.{real_of};

// A machine holds many patterns of a NaN, and which one is nobody's promise: all of them give
// 0x7ff8_0000_0000_0000.
pub fn to_bits(x: f64) -> u64
    ensures { result ≡ Ieee.to_bits binary64 x }
{
    if x.is_nan() {
        0x7ff8_0000_0000_0000
    } else {
        f64::to_bits(x)
    }
}

pub fn from_bits(b: u64) -> Option<f64>
    ensures { result ≡ real_of b }
{
    // Above the bits of an infinity, the sign left out, stand those of the NaNs.
    if b % 0x8000_0000_0000_0000 <= 0x7ff0_0000_0000_0000 {
        Some(f64::from_bits(b))
    } else {
        None
    }
}
