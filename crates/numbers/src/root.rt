// The square root: of a whole number, one bit of the root at each call, and from it that of a real,
// rounded to the nearest with ties to even. Document 01 names this recursion ("How each place
// should look": it "takes one bit of the root at each call of itself"), so neither `f64::sqrt` nor
// `u64::isqrt` stands here.
ghost use Rattle.std.specs.Prelude.{◌≡◌, ◌*◌, ◌^◌, ◌<◌, ◌≤◌, false, T, pos};
ghost use Rattle.std.specs.Float.Ieee as Ieee;
ghost use Rattle.std.specs.Float.{fin, inf};
ghost use Rattle.numbers.specs.Root.{Rooted, Digit, Padded};
ghost use Rattle.numbers.specs.Sqrt.{root_float, sqrt_of};

// A whole root q, cut, and what is left: the number is q * q + r.
#[derive(Clone, Copy)]
struct Root {
    q: u64,
    r: u64,
}

// 2^52: the least significand of 53 bits, and 4^26.
const LEAST: u64 = 4503599627370496;

// One more bit of the root, for one more digit d of base 4 of the number.
fn digit(q: u64, r: u64, d: u64) -> Root
    requires { (r ≤ 2 * q) × (q < 2 ^ 60) × (d < 4) }
    ensures { Digit q r d result.q result.r }
{
    let n = 4 * r + d;
    let t = 4 * q + 1;
    if n < t {
        Root { q: 2 * q, r: n }
    } else {
        Root {
            q: 2 * q + 1,
            r: n - t,
        }
    }
}

// The root of x * 4^zeros, of which `bits` bits remain: that of the number without its last digit
// of base 4, and one bit more.
fn isqrt(x: u64, zeros: u64, bits: u64) -> Root
    requires { (x * 4 ^ zeros < 4 ^ bits) × (bits ≤ 53) }
    ensures { Rooted (x * 4 ^ zeros) result.q result.r }
{
    if bits == 0 {
        return Root { q: 0, r: 0 };
    }
    if zeros == 0 {
        let p = isqrt(x / 4, 0, bits - 1);
        return digit(p.q, p.r, x % 4);
    }
    let p = isqrt(x, zeros - 1, bits - 1);
    digit(p.q, p.r, 0)
}

// How many digits 0 of base 4 make m a number of 53 such digits.
fn padding(m: u64) -> u64
    requires { (0 < m) × (m < 4 ^ 27) }
    ensures { Padded m result }
{
    52 - m.ilog2() as u64 / 2
}

// The root of m * 4^h units of 2^-1074.
fn even(m: u64, h: u64) -> f64
    requires { (0 < m) × (m < 2 ^ 54) × (h ≤ 1022) }
    ensures { result ≡ root_float (m * 4 ^ h * 4 ^ 537) }
{
    let z = padding(m);
    let p = isqrt(m, z, 53);
    let e = h + 537 - z;
    if p.q < p.r {
        f64::from_bits(e * LEAST + (p.q + 1))
    } else {
        f64::from_bits(e * LEAST + p.q)
    }
}

// The root of m * 2^k units of 2^-1074.
#[tactic(auto, using(crate::proofs::root::Laws::at_even, crate::proofs::root::Laws::at_odd))]
fn rooted(m: u64, k: u64) -> f64
    requires { (0 < m) × (m < 2 ^ 53) × (k ≤ 2045) }
    ensures { result ≡ root_float (m * 2 ^ k * 2 ^ 1074) }
{
    if k % 2 == 0 {
        even(m, k / 2)
    } else {
        even(2 * m, k / 2)
    }
}

fn positive(x: f64) -> f64
    requires above_zero { T (Ieee.lt (fin false 0 (pos 0)) x) }
    requires below_infinity { T (Ieee.lt x (inf false)) }
    ensures { result ≡ sqrt_of x }
{
    let b = f64::to_bits(x);
    let e = b / LEAST;
    let t = b % LEAST;
    if e == 0 {
        rooted(t, 0)
    } else {
        rooted(t + LEAST, e - 1)
    }
}

#[tactic(auto, using(crate::proofs::root::Laws::below_endless, crate::proofs::root::Laws::endless, crate::proofs::root::Laws::nan_under, crate::proofs::root::Laws::still, crate::proofs::Reals::above))]
pub fn sqrt(x: f64) -> f64
    ensures { result ≡ sqrt_of x }
{
    if x > 0.0 {
        if x < f64::INFINITY { positive(x) } else { x }
    } else if x < 0.0 {
        f64::NAN
    } else {
        x
    }
}
