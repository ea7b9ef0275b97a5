// A ring turned where it stands: begun at another point, and closed anew.
ghost use Rattle.std.specs.Prelude.{◌≡◌, ◌≤◌, length};
ghost use Rattle.loops.specs.Rings.{begun, turned};
ghost use Rattle.rings.specs.Turns.{turned_unless, begin_ring_at, recut_at, align_at};

use tables::moves::{Move, slide};
use tables::ring_point::RingPoint;
use tables::slices::turn_left;

// Begins at the point k; what comes round is moved.
pub fn begin<T: RingPoint>(ring: &mut [T], k: usize, again: Move)
    ensures { ring.new ≡ begun (T.slid again) k ring.old }
{
    let round = k.min(ring.len());
    turn_left(ring, round);
    let from = ring.len() - round;
    slide(&mut ring[from..], again);
}

// Without its last point, which repeats the first, begun at the point k, and closed anew.
fn turn<T: RingPoint>(ring: &mut [T], k: usize, again: Move)
    requires { 2 ≤ length ring.old }
    ensures { ring.new ≡ turned (T.slid again) k ring.old }
{
    let points = ring.len() - 1;
    begin(&mut ring[..points], k, again);
    ring[points] = ring[0].slid(again);
}

// A ring that is to begin where it does stays, and so does one of fewer than `few` points.
fn turn_unless<T: RingPoint>(few: usize, ring: &mut [T], k: usize, again: Move)
    requires { 2 ≤ few }
    ensures { ring.new ≡ turned_unless few (T.slid again) k ring.old }
{
    if k == 0 {
        return;
    }
    if ring.len() < few {
        return;
    }
    turn(ring, k, again);
}

// One of fewer than three open points stays.
pub fn begin_ring_at<T: RingPoint>(ring: &mut [T], k: usize, again: Move)
    ensures { ring.new ≡ begin_ring_at (T.slid again) k ring.old }
{
    turn_unless(4, ring, k, again);
}

// A ring cut anew at its open point k, however few its points.
pub fn recut_at<T: RingPoint>(ring: &mut [T], k: usize, again: Move)
    ensures { ring.new ≡ recut_at (T.slid again) k ring.old }
{
    turn_unless(2, ring, k, again);
}

// Begun at the point k, put on a branch, and closed anew; one of fewer than three points stays.
pub fn align_at<T: RingPoint>(ring: &mut [T], k: usize, again: Move, put: Move)
    ensures { ring.new ≡ align_at (T.slid again) (T.slid put) k ring.old }
{
    if ring.len() < 3 {
        return;
    }
    let open = ring.len() - 1;
    begin(&mut ring[..open], k, again);
    slide(&mut ring[..open], put);
    ring[open] = ring[0].slid(again);
}
