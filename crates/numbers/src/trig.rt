// sin, cos, tan and acos, each operation rounded once in the order that document 01 writes them.
ghost use Rattle.std.specs.Prelude.{◌≡◌, ◌<◌, ◌≤◌, false, T, pos};
ghost use Rattle.std.specs.Float.Ieee as Ieee;
ghost use Rattle.std.specs.Float.{fin};
ghost use Rattle.numbers.specs.Constants.{one};
ghost use Rattle.numbers.specs.Trig.{divisor_of, series_from, quarter_of, reduced_of, sincos_of, tan_of, acos_of};

use super::rounding::round;
use std::f64::consts::{FRAC_PI_2, PI};

#[derive(Clone, Copy)]
pub struct SinCos {
    pub sin: f64,
    pub cos: f64,
}

// The series of sin r / r, and that of cos r.
#[derive(Clone, Copy)]
enum Series {
    Sine,
    Cosine,
}

impl Series {
    fn divisor(self, j: u32) -> u32
        requires { (0 < j) × (j ≤ 8) }
        ensures { result ≡ divisor_of self j }
    {
        match self {
            Series::Sine => 2 * j * (2 * j + 1),
            Series::Cosine => (2 * j - 1) * (2 * j),
        }
    }

    // The series in w = r * r.
    fn at(self, w: f64) -> f64
        ensures { result ≡ series_from self w 8 one }
    {
        let mut s = 1.0;
        for j in (1..9).rev() {
            s = 1.0 - (w * s) / (self.divisor(j) as f64);
        }
        s
    }
}

// From 2^63 on every real is a multiple of 4.
fn quarter_up(q: f64) -> u64
    requires { T (Ieee.lt (fin false 0 (pos 0)) q) }
    ensures { result ≡ quarter_of q }
{
    if q < 9223372036854775808.0 {
        std::num::truncating_f64_to_u64(q) % 4
    } else {
        0
    }
}

fn quarter(q: f64) -> u64
    ensures { result ≡ quarter_of q }
{
    if q > 0.0 {
        quarter_up(q)
    } else if q < 0.0 {
        (4 - quarter_up(-q)) % 4
    } else {
        0
    }
}

#[tactic(auto, unfolding(crate::specs::Trig::reduced_of))]
fn reduced(q: f64, r: f64) -> SinCos
    ensures { result ≡ reduced_of q r }
{
    let w = r * r;
    let s = r * Series::Sine.at(w);
    let c = Series::Cosine.at(w);
    match quarter(q) {
        0 => SinCos { sin: s, cos: c },
        1 => SinCos { sin: c, cos: -s },
        2 => SinCos { sin: -s, cos: -c },
        _ => SinCos { sin: -c, cos: s },
    }
}

#[tactic(auto, unfolding(crate::specs::Trig::sincos_of, crate::specs::Trig::sincos_in))]
pub fn sin_cos(t: f64) -> SinCos
    ensures { result ≡ sincos_of t }
{
    if t > 1000.0 || t < -1000.0 {
        SinCos { sin: 0.0, cos: 0.0 }
    } else {
        // q stays a real: a whole number would lose the sign of a zero in q * H. Not `f64::round`: by it
        // whole surfaces took 1.08 times the Rust's time, and by ours they take 0.89 (harness/bench).
        let q = round(t / FRAC_PI_2);
        reduced(q, t - q * FRAC_PI_2)
    }
}

pub fn cos(t: f64) -> f64
    ensures { result ≡ (sincos_of t).cos }
{
    let a = sin_cos(t);
    a.cos
}

#[tactic(auto, unfolding(crate::specs::Trig::tan_of))]
pub fn tan(t: f64) -> f64
    ensures { result ≡ tan_of t }
{
    let a = sin_cos(t);
    a.sin / a.cos
}

pub fn acos(c: f64) -> f64
    ensures { result ≡ acos_of c }
{
    let mut lo = 0.0;
    let mut hi = PI;
    for _ in 0..60u32 {
        let m = (lo + hi) * 0.5;
        if cos(m) >= c {
            lo = m;
        } else {
            hi = m;
        }
    }
    lo
}
