// `closed_region` of face.rs: which loop of a face is the outer one. The others are its holes.
ghost use Rattle.std.specs.Prelude.{◌≡◌, map, length};
ghost use Rattle.lists.specs.Placed.{placed};
ghost use Rattle.tables.specs.Loops.{loops_by};
ghost use Rattle.closed_region.specs.Loops.{box_in};
ghost use Rattle.closed_region.specs.Region.{outer_among};

use super::box_table::boxes_into;
use super::boxes::Bounds;
use super::enclosing::outer_loop;
use super::outer::last_largest;
use tables::loops::Loops;
use tables::slices::part;
use tables::table_row::TableRow;

// The areas of the loops stand in front of `areas`; their boxes are written to the front of `boxes`.
// Where that has no room for them the largest area decides alone.
pub fn closed_region<R: TableRow>(loops: Loops<R>, areas: &[f64], boxes: &mut [Bounds]) -> usize
    ensures value { result ≡ outer_among (loops_by R.rows_of loops.entry) areas.now (length boxes.old) }
    ensures boxes_after { boxes.new ≡ placed 0 (map box_in (loops_by R.rows_of loops.entry)) boxes.old }
{
    let n = loops.counts.len();
    boxes_into(loops, boxes);
    if boxes.len() < n {
        return last_largest(part(areas, 0, n));
    }
    outer_loop(&boxes[..n], part(areas, 0, n))
}
