// The leaves of numbers, and frames.
ghost use Rattle.std.specs.Prelude.{◌≡◌};
ghost use Rattle.numbers.specs.Round.{round_away, floor_of, ceil_of};
ghost use Rattle.numbers.specs.Sqrt.{sqrt_of};
ghost use Rattle.numbers.specs.Trig.{sincos_of, tan_of, acos_of};
ghost use Rattle.numbers.specs.Order.{abs_of, min_of, max_of};
ghost use Rattle.numbers.specs.Frames.{polar_of};
ghost use Rattle.numbers.specs.Frames as Frames;

use numbers::math::{Frame, Vec3};

#[unsafe(no_mangle)]
pub extern "C" fn compared_round(x: f64) -> f64
    ensures { result ≡ round_away x }
{
    numbers::rounding::round(x)
}

#[unsafe(no_mangle)]
#[tactic(auto, using(numbers::proofs::rounding::Laws::floor_is))]
pub extern "C" fn compared_floor(x: f64) -> f64
    ensures { result ≡ floor_of x }
{
    x.floor()
}

#[unsafe(no_mangle)]
#[tactic(auto, using(numbers::proofs::rounding::Laws::ceil_is))]
pub extern "C" fn compared_ceil(x: f64) -> f64
    ensures { result ≡ ceil_of x }
{
    x.ceil()
}

#[unsafe(no_mangle)]
pub extern "C" fn compared_sqrt(x: f64) -> f64
    ensures { result ≡ sqrt_of x }
{
    numbers::root::sqrt(x)
}

#[unsafe(no_mangle)]
pub extern "C" fn compared_sin(t: f64) -> f64
    ensures { result ≡ (sincos_of t).sin }
{
    let a = numbers::trig::sin_cos(t);
    a.sin
}

#[unsafe(no_mangle)]
pub extern "C" fn compared_cos(t: f64) -> f64
    ensures { result ≡ (sincos_of t).cos }
{
    numbers::trig::cos(t)
}

#[unsafe(no_mangle)]
pub extern "C" fn compared_tan(t: f64) -> f64
    ensures { result ≡ tan_of t }
{
    numbers::trig::tan(t)
}

#[unsafe(no_mangle)]
pub extern "C" fn compared_acos(c: f64) -> f64
    ensures { result ≡ acos_of c }
{
    numbers::trig::acos(c)
}

#[unsafe(no_mangle)]
#[tactic(auto, using(numbers::proofs::order::Laws::size_is))]
pub extern "C" fn compared_abs(a: f64) -> f64
    ensures { result ≡ abs_of a }
{
    a.abs()
}

#[unsafe(no_mangle)]
pub extern "C" fn compared_min(a: f64, b: f64) -> f64
    ensures { result ≡ min_of a b }
{
    numbers::order::min(a, b)
}

#[unsafe(no_mangle)]
pub extern "C" fn compared_max(a: f64, b: f64) -> f64
    ensures { result ≡ max_of a b }
{
    numbers::order::max(a, b)
}

#[unsafe(no_mangle)]
pub extern "C" fn compared_frame_new(origin: Vec3, axis: Vec3, reference: Vec3) -> Frame
    ensures { result ≡ Frames.frame_of origin axis reference }
{
    Frame::new(origin, axis, reference)
}

#[unsafe(no_mangle)]
pub extern "C" fn compared_polar(frame: Frame, r: f64, theta: f64) -> Vec3
    ensures { result ≡ polar_of frame r theta }
{
    frame.polar(r, theta)
}
