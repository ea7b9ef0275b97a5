// What the search for the outer loop asks of a box, of two boxes, and of the areas.
ghost use Rattle.std.specs.Prelude.{◌≡◌, length};
ghost use Rattle.closed_region.specs.Outer.{side_of, encloses, last_largest};
ghost use Rattle.closed_region.specs.ByOutermost.{Fits, empty_box, hull_of, one_if_unenclosable, encloses_outermost};

use super::boxes::Bounds;
use numbers::order::{max, min};

// What one pass over the boxes finds: the outermost ends of the boxes that some box can enclose, and
// the number of those that none can. Within a slack that is not below 0 none encloses a box that does
// not enclose even itself: an end of it is a NaN, or the slack is infinite and a lower end is -inf or
// an upper one +inf.
#[derive(Clone, Copy)]
pub struct Outermost {
    pub ends: Bounds,
    pub unenclosable: usize,
}

// That a box which is passed has ends of 64 bits is what the search by the outermost ends rests on.
pub fn longer_side(b: Bounds) -> f64
    ensures value { result ≡ side_of b }
    ensures fit { Fits b }
{
    max(b.uhi - b.ulo, b.vhi - b.vlo)
}

#[tactic(auto, unfolding(crate::specs::Outer::encloses))]
pub fn encloses_within(slack: f64, b: Bounds, o: Bounds) -> bool
    ensures { result ≡ encloses slack b o }
{
    b.ulo <= o.ulo + slack
        && b.uhi >= o.uhi - slack
        && b.vlo <= o.vlo + slack
        && b.vhi >= o.vhi - slack
}

// The outermost ends of no boxes: a lower end that is no NaN is at most +inf, an upper one at least
// -inf.
pub fn empty_box() -> Bounds
    ensures { result ≡ empty_box }
{
    Bounds {
        ulo: f64::INFINITY,
        uhi: f64::NEG_INFINITY,
        vlo: f64::INFINITY,
        vhi: f64::NEG_INFINITY,
    }
}

// The outermost ends of two boxes.
pub fn hull(a: Bounds, b: Bounds) -> Bounds
    ensures { result ≡ hull_of a b }
{
    Bounds {
        ulo: min(a.ulo, b.ulo),
        uhi: max(a.uhi, b.uhi),
        vlo: min(a.vlo, b.vlo),
        vhi: max(a.vhi, b.vhi),
    }
}

// How much a box adds to the number of those that none can enclose.
#[tactic(auto, unfolding(crate::specs::ByOutermost::one_if_unenclosable))]
fn one_if_unenclosable(slack: f64, b: Bounds) -> usize
    ensures { result ≡ one_if_unenclosable slack b }
{
    if encloses_within(slack, b, b) { 0 } else { 1 }
}

// Whether b, one of two or more boxes, encloses all others: it encloses the outermost ends, and none
// but b itself is unenclosable.
#[tactic(auto, unfolding(crate::specs::ByOutermost::encloses_outermost))]
pub fn encloses_outermost(slack: f64, outermost: Outermost, b: Bounds) -> bool
    ensures { result ≡ encloses_outermost slack outermost b }
{
    encloses_within(slack, b, outermost.ends)
        && outermost.unenclosable == one_if_unenclosable(slack, b)
}

pub fn last_largest(areas: &[f64]) -> usize
    ensures { result ≡ last_largest areas.now (length areas.now) }
{
    let mut best = 0;
    for (i, &area) in areas.iter().enumerate() {
        if !(area.abs() < areas[best].abs()) {
            best = i;
        }
    }
    best
}
