// Where two rings of a band begin: the search for a start, and a ring put there.
#![tactic(auto)]

ghost use Rattle.std.specs.Prelude.{◌≡◌};
ghost use Rattle.rings.specs.Starts.{later_by};

use loops::branch::branch_shift;
use rings::choices::{first_of, nearest, u_at};
use rings::moves::align_at;
use tables::moves::{Move, slide_unless_zero};
use tables::ring_point::RingPoint;

pub mod trials;

// A later ring, put to the cut.
pub fn later_for<T: RingPoint>(ring: &mut [T], cut: f64, period: f64)
    ensures { ring.new ≡ later_by T.u_of T.slid period cut ring.old }
{
    let k = nearest(ring, cut, period);
    let shift = branch_shift(u_at(ring, k), cut, period);
    align_at(ring, k, Move::Up(period), Move::Down(shift));
    let step = cut - first_of(ring);
    slide_unless_zero(ring, step, Move::Up(step));
}
