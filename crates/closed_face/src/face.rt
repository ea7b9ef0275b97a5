// The closed path: `closed_region`, then `rephase_holes`.
ghost use Rattle.std.specs.Prelude.{◌≡◌, cond, ◌≤◌, ltb, length, take};
ghost use mathlib.Core.List.{map, flatten};
ghost use Rattle.lists.specs.Pieces.{pieces};
ghost use Rattle.lists.specs.Placed.{placed};
ghost use Rattle.surfaces.specs.Domains.{period_length};
ghost use Rattle.tables.specs.Loops.{loops_in};
ghost use Rattle.tables.specs.Rows.{rows};
ghost use Rattle.closed_region.specs.Loops.{box_in};
ghost use Rattle.closed_face.specs.First.{part_first};
ghost use Rattle.closed_face.specs.Face.{outer_found, rows_then, areas_left};

use super::first::part_first;
use closed_region::boxes::Bounds;
use closed_region::holes::rephase_holes;
use closed_region::region::closed_region;
use tables::corners::Corner;
use tables::loops::{Loops, loop_of};
use tables::slices::part;

// How many rows the first k loops have: where loop k begins.
fn begin_of(loops: Loops, k: usize) -> usize
    ensures { (result ≡ length (flatten (take k (loops_in loops.entry)))) × (result ≤ length loops.entry.corners.now) }
{
    loops.take(k).map(|one| one.len()).sum()
}

// The rows of loop k, then those of all others in their order, into the front of out.
pub fn loop_first(loops: Loops, k: usize, out: &mut [Corner])
    ensures { rows out.new ≡ placed 0 (flatten (part_first k 1 (loops_in loops.entry))) (rows out.old) }
{
    let from = begin_of(loops, k);
    let m = loop_of(loops, k).len();
    let end = begin_of(loops, loops.counts.len());
    part_first(&loops.corners[..end], from, m, out);
}

// The outer loop, then the holes in their order, into the front of out, out_counts and out_areas.
// `areas` are those of the loops as they are given. The holes are moved in t, the areas of those that
// moved are worked out anew, and the boxes are written too.
// The result is three slices and no struct: `ResultLoops` of filling has the lengths of version 1, which
// would ask more of callers, and a struct of slices would be made for this one call and taken apart.
// Nor are t and its counts one value: a struct with a `&mut` owes a clause on what it gives back.
pub fn closed_face(
    t: &mut [Corner],
    counts: &[usize],
    areas: &mut [f64],
    boxes: &mut [Bounds],
    u: Option<f64>,
    v: Option<f64>,
    out: &mut [Corner],
    out_counts: &mut [usize],
    out_areas: &mut [f64],
)
    ensures t_after { rows t.new ≡ rows_then counts.now (rows t.old) areas.old (length boxes.old) (period_length u) (period_length v) }
    ensures areas_after { areas.new ≡ areas_left counts.now (rows t.old) areas.old (length boxes.old) (period_length u) (period_length v) }
    ensures boxes_after { boxes.new ≡ placed 0 (map box_in (pieces counts.now (rows t.old))) boxes.old }
    ensures out_after { rows out.new ≡ placed 0 (flatten (part_first (outer_found counts.now (rows t.old) areas.old (length boxes.old)) 1 (pieces counts.now (rows t.new)))) (rows out.old) }
    ensures out_counts_after { out_counts.new ≡ cond (ltb (outer_found counts.now (rows t.old) areas.old (length boxes.old)) (length counts.now)) (placed 0 (part_first (outer_found counts.now (rows t.old) areas.old (length boxes.old)) 1 counts.now) out_counts.old) out_counts.old }
    ensures out_areas_after { out_areas.new ≡ placed 0 (part_first (outer_found counts.now (rows t.old) areas.old (length boxes.old)) 1 (take (length counts.now) areas.new)) out_areas.old }
{
    let given = Loops { corners: t, counts };
    let outer = closed_region(given, areas, boxes);
    rephase_holes(t, counts, areas, outer, u, v);
    let moved = Loops { corners: t, counts };
    loop_first(moved, outer, out);
    // No loop is the outer one where there are none.
    if outer < counts.len() {
        part_first(counts, outer, 1, out_counts);
    }
    // `part` and not a range, as there may be fewer areas than counts.
    part_first(part(areas, 0, counts.len()), outer, 1, out_areas);
}
