// The boxes of the loops of a face in u and v.
ghost use Rattle.std.specs.Prelude.{◌≡◌, map};
ghost use Rattle.lists.specs.Placed.{placed};
ghost use Rattle.tables.specs.Loops.{loops_by};
ghost use Rattle.closed_region.specs.Loops.{box_in};
ghost use Rattle.closed_region.specs.Outer.{box_at};

use super::boxes::Bounds;
use super::outer::{empty_box, hull};
use tables::loops::Loops;
use tables::table_row::TableRow;

// Box i. Past the last one every end is a NaN.
#[tactic(auto, using(tables::proofs::slices::Laws::nan_is))]
pub fn box_at(boxes: &[Bounds], i: usize) -> Bounds
    ensures { result ≡ box_at boxes.now i }
{
    let nan = f64::NAN;
    let nowhere = Bounds {
        ulo: nan,
        uhi: nan,
        vlo: nan,
        vhi: nan,
    };
    boxes.get(i).copied().unwrap_or(nowhere)
}

// The box of a loop.
pub fn box_of<R: TableRow>(t: &[R]) -> Bounds
    ensures { result ≡ box_in (R.rows_of t.now) }
{
    let mut b = empty_box();
    for row in t {
        let c = row.corner();
        b = hull(
            b,
            Bounds {
                ulo: c.u,
                uhi: c.u,
                vlo: c.v,
                vhi: c.v,
            },
        );
    }
    b
}

// The box of each loop into the front of `boxes`. Nothing is written where they do not fit.
pub fn boxes_into<R: TableRow>(loops: Loops<R>, boxes: &mut [Bounds])
    ensures { boxes.new ≡ placed 0 (map box_in (loops_by R.rows_of loops.entry)) boxes.old }
{
    if boxes.len() < loops.counts.len() {
        return;
    }
    for (i, one) in loops.enumerate() {
        boxes[i] = box_of(one);
    }
}
