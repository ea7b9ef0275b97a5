// Rounding to the nearest whole number, halves away from zero. Not `f64::round`, which means the same: by
// it the search for a start took up to 1.3 times as long, and whole surfaces 1.2 times.
ghost use Rattle.std.specs.Prelude.{◌≡◌, true, false, T, pos};
ghost use Rattle.std.specs.Float.Ieee as Ieee;
ghost use Rattle.std.specs.Float.{fin};
ghost use Rattle.numbers.specs.Round.{round_away};

// x above zero, to the nearest whole number. From 2^53 on every float is whole. Below that the
// double is exact, and half of (floor(2x) + 1), cut, is floor(x + 1/2).
fn half_up(x: f64) -> f64
    requires { T (Ieee.lt (fin false 0 (pos 0)) x) }
    ensures { result ≡ round_away x }
{
    if x < 9007199254740992.0 {
        let t = std::num::truncating_f64_to_u64(x + x);
        std::num::nearest_u64_to_f64((t + 1) / 2)
    } else {
        x
    }
}

// The whole number nearest to x, of two the one further from zero: 2.5 gives 3, -0.5 gives -1 and
// -0.25 gives -0.0.
pub fn round(x: f64) -> f64
    ensures { result ≡ round_away x }
{
    if x > 0.0 {
        half_up(x)
    } else if x < 0.0 {
        -half_up(-x)
    } else {
        x
    }
}
