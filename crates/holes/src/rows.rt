// The holes of a face whose loops stand one behind the other in a corner table: all loops but those of
// number a and b. Where they do not all fit, nothing is written.
ghost use Rattle.std.specs.Prelude.{◌≡◌, cond, ◌+◌, ◌-◌, ◌^◌, ◌≤◌, ◌<◌, length};
ghost use mathlib.Core.List.{[], flatten};
ghost use Rattle.lists.specs.Placed.{placed};
ghost use Rattle.tables.specs.Loops.{loops_in};
ghost use Rattle.tables.specs.Rows.{rows};
ghost use Rattle.holes.specs.Others.{others};

use crate::picked::is_ring;
use tables::corners::Corner;
use tables::loops::Loops;
use tables::slices::{copy_into, has_room};

// How many rows the holes have: a sum over all loops but two, which are told by their numbers.
pub fn count_rows(loops: Loops, a: usize, b: usize) -> usize
    ensures { (result ≡ length (flatten (others a b (loops_in loops.entry)))) × (result ≤ length (rows loops.entry.corners.now)) }
{
    let mut sum = 0;
    for (i, one) in loops.enumerate() {
        if !is_ring(i, a, b) {
            sum += one.len();
        }
    }
    sum
}

// The holes' rows, one loop behind the other, into out from row `at` on. The place is counted by hand, which
// is no plainer otherwise: an iterator over `out` that gives parts of those lengths would be one of our
// own, for this one loop.
pub fn pick_holes(out: &mut [Corner], at: usize, loops: Loops, a: usize, b: usize)
    ensures { rows out.new ≡ placed at (flatten (others a b (loops_in loops.entry))) (rows out.old) }
{
    if !has_room(out.len(), at, count_rows(loops, a, b)) {
        return;
    }
    let mut here = at;
    for (i, one) in loops.enumerate() {
        if !is_ring(i, a, b) {
            copy_into(out, here, one);
            here += one.len();
        }
    }
}
