// The closed path: which loop is the outer one, and the holes moved onto its branch.
ghost use Rattle.std.specs.Prelude.{◌≡◌, map, length};
ghost use Rattle.lists.specs.Pieces.{pieces};
ghost use Rattle.lists.specs.Placed.{placed};
ghost use Rattle.surfaces.specs.Domains.{period_length};
ghost use Rattle.tables.specs.Rows.{rows};
ghost use Rattle.closed_region.specs.Holes.{rephased_rows, rephased_areas};
ghost use Rattle.closed_region.specs.Loops.{box_in};
ghost use Rattle.closed_region.specs.Outer.{outer_of};
ghost use Rattle.closed_region.specs.Region.{outer_among};
ghost use Rattle.views.specs.BoxTables.{boxes_of, rest_of as behind_boxes};
ghost use Rattle.views.specs.Tables.{corners_of, rest_of};
ghost use Rattle.compared.specs.Surfaces.{period_of};

use super::of_surfaces::period_of;
use tables::loops::Loops;
use views::boxes::split_boxes_mut;
use views::corners::split_corners_mut;

#[unsafe(no_mangle)]
#[tactic(auto, using(views::proofs::CornerRows::rows_read, views::proofs::BoxRows::items_after, views::proofs::BoxRows::rest_after))]
pub extern "C" fn compared_closed_region(
    t: &[f64],
    counts: &[usize],
    areas: &[f64],
    boxes: &mut [f64],
) -> usize
    ensures value { result ≡ outer_among (pieces counts.now (rows (corners_of t.now))) areas.now (length (boxes_of boxes.old)) }
    ensures boxes_after { boxes_of boxes.new ≡ placed 0 (map box_in (pieces counts.now (rows (corners_of t.now)))) (boxes_of boxes.old) }
    ensures behind { behind_boxes boxes.new ≡ behind_boxes boxes.old }
{
    let (corners, _) = t.as_chunks::<5>();
    let (held, _) = split_boxes_mut(boxes);
    let loops = Loops { corners, counts };
    closed_region::region::closed_region(loops, areas, held)
}

#[unsafe(no_mangle)]
#[tactic(auto, using(views::proofs::BoxRows::boxes_read))]
pub extern "C" fn compared_outer_loop(boxes: &[f64], areas: &[f64]) -> usize
    ensures { result ≡ outer_of (boxes_of boxes.now) areas.now }
{
    let (held, _) = boxes.as_chunks::<4>();
    closed_region::enclosing::outer_loop(held, areas)
}

#[unsafe(no_mangle)]
#[tactic(auto, using(views::proofs::CornerRows::items_after, views::proofs::CornerRows::rest_after))]
pub extern "C" fn compared_rephase_holes(
    t: &mut [f64],
    counts: &[usize],
    areas: &mut [f64],
    outer: usize,
    uperiod: f64,
    vperiod: f64,
)
    ensures t_after { rows (corners_of t.new) ≡ rephased_rows outer (period_length (period_of uperiod)) (period_length (period_of vperiod)) (pieces counts.now (rows (corners_of t.old))) areas.old (rows (corners_of t.old)) }
    ensures behind { rest_of t.new ≡ rest_of t.old }
    ensures areas_after { areas.new ≡ rephased_areas outer (period_length (period_of uperiod)) (period_length (period_of vperiod)) (pieces counts.now (rows (corners_of t.old))) areas.old }
{
    let u = period_of(uperiod);
    let v = period_of(vperiod);
    let (corners, _) = split_corners_mut(t);
    closed_region::holes::rephase_holes(corners, counts, areas, outer, u, v);
}
