// What the search for a start decides by the u of a ring. The cut and the period are two parameters, as the
// definitions take them; past the end a u is a NaN, as the definitions read it.
ghost use Rattle.std.specs.Prelude.{◌≡◌, map, get_or};
ghost use Rattle.std.specs.Float.{nan};
ghost use Rattle.rings.specs.Choices.{first_of, begins_backward, offset, nearest, on_seam, step_stands, stands_at_the_cut, serve};

use numbers::rounding::round;
use tables::ring_point::RingPoint;

// The u of point k, and a NaN past the end.
pub fn u_at<T: RingPoint>(ring: &[T], k: usize) -> f64
    ensures { result ≡ get_or (map T.u_of ring.now) k nan }
{
    match ring.get(k) {
        Some(point) => point.u(),
        None => f64::NAN,
    }
}

// Of no points a NaN.
pub fn first_of<T: RingPoint>(ring: &[T]) -> f64
    ensures { result ≡ first_of (map T.u_of ring.now) }
{
    u_at(ring, 0)
}

pub fn begins_backward<T: RingPoint>(ring: &[T]) -> bool
    ensures { result ≡ begins_backward (map T.u_of ring.now) }
{
    if ring.len() <= 3 {
        return false;
    }
    ring[1].u() < ring[0].u()
}

// How far u lies from the cut in periods, whole ones left out.
#[tactic(auto, using(numbers::proofs::order::Laws::size_is))]
fn offset(u: f64, cut: f64, period: f64) -> f64
    ensures { result ≡ offset period cut u }
{
    let x = (u - cut) / period;
    (x - round(x)).abs()
}

// Of the open points the first of those nearest the cut.
pub fn nearest<T: RingPoint>(ring: &[T], cut: f64, period: f64) -> usize
    ensures { result ≡ nearest period cut (map T.u_of ring.now) }
{
    if ring.len() < 2 {
        return 0;
    }
    let mut best = 0;
    let mut low = offset(ring[0].u(), cut, period);
    for (i, point) in ring[..ring.len() - 1].iter().enumerate() {
        let x = offset(point.u(), cut, period);
        if x < low {
            low = x;
            best = i;
        }
    }
    best
}

#[tactic(auto, using(numbers::proofs::order::Laws::size_is))]
fn on_seam(u: f64, cut: f64, period: f64) -> bool
    ensures { result ≡ on_seam period cut u }
{
    if (u - cut).abs() < 1e-6 {
        return true;
    }
    (u - (cut + period)).abs() < 1e-6
}

// Whether the step from a to b is one of constant u on the seam.
#[tactic(auto, using(numbers::proofs::order::Laws::size_is))]
fn step_stands(a: f64, b: f64, cut: f64, period: f64) -> bool
    ensures { result ≡ step_stands period cut a b }
{
    if (b - a).abs() < 1e-9 {
        return on_seam(a, cut, period);
    }
    false
}

pub fn stands_at_the_cut(u: &[f64], cut: f64, period: f64) -> bool
    ensures { result ≡ stands_at_the_cut period cut u.now }
{
    u.windows(2).any(|w| step_stands(w[0], w[1], cut, period))
}

// Whether the two rings, of which the first is at the cut, neither begin backward nor leave such a
// step.
pub fn serve(first: &[f64], later: &[f64], period: f64) -> bool
    ensures { result ≡ serve period first.now later.now }
{
    if begins_backward(first) {
        return false;
    }
    let cut = first_of(first);
    if stands_at_the_cut(first, cut, period) {
        return false;
    }
    !stands_at_the_cut(later, cut, period)
}
