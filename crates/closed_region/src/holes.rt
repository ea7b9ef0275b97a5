// `rephase_holes` of face.rs, on a table: each hole moved by whole periods onto the branch of the
// outer loop.
ghost use Rattle.std.specs.Prelude.{◌≡◌, [], ◌-◌, ◌≤◌, length, get_or, set, take, drop};
ghost use Rattle.std.specs.Float.{nan};
ghost use Rattle.lists.specs.Parts.{on_part};
ghost use Rattle.lists.specs.Pieces.{pieces};
ghost use Rattle.surfaces.specs.Domains.{period_length};
ghost use Rattle.loops.specs.Branch.{LeavesHalf};
ghost use Rattle.tables.specs.Rows.{rows};
ghost use Rattle.closed_region.specs.Loops.{area_in};
ghost use Rattle.closed_region.specs.Holes.{whole_periods, branch_in, shifted, rephased_corners, rephased_area, loop_then, area_then, rephased_rows, rephased_areas};

use super::box_table::box_of;
use super::rephase::{Branch, stays};
use loops::rows::signed_area;
use numbers::rounding::round;
use tables::corners::Corner;
use tables::loops::{Loops, loop_of};
use tables::moves::{Move, move_v, slide};
use tables::slices::{at, piece_end, put};

// The whole periods that bring one middle nearest to another.
pub fn hole_shift(period: f64, from: f64, to: f64) -> f64
    ensures value { result ≡ whole_periods period from to }
    ensures leaves_half { LeavesHalf to from period result }
{
    if period > 0.0 {
        return round((to - from) / period) * period;
    }
    0.0
}

// Where the holes of an outer loop go.
fn branch_of(t: &[Corner], u: Option<f64>, v: Option<f64>) -> Branch
    ensures { result ≡ branch_in (period_length u) (period_length v) (rows t.now) }
{
    let b = box_of(t);
    Branch {
        umid: (b.ulo + b.uhi) * 0.5,
        vmid: (b.vlo + b.vhi) * 0.5,
        uperiod: u.unwrap_or(0.0),
        vperiod: v.unwrap_or(0.0),
    }
}

// Moves a hole, and answers its area.
#[tactic(auto, using(tables::proofs::Steps::row_steps))]
fn move_hole(t: &mut [Corner], su: f64, sv: f64) -> f64
    ensures value { result ≡ area_in (shifted su sv (rows t.old)) }
    ensures t_after { rows t.new ≡ shifted su sv (rows t.old) }
{
    slide(t, Move::Up(su));
    move_v(t, Move::Up(sv));
    signed_area(t)
}

// A hole whose area was `area`: answers the area that it now has. Positions stay: a parameter moved by
// whole periods names the same point.
pub fn rephase_hole(t: &mut [Corner], area: f64, b: Branch) -> f64
    ensures value { result ≡ rephased_area b (rows t.old) area }
    ensures t_after { rows t.new ≡ rephased_corners b (rows t.old) }
{
    let own = box_of(t);
    let su = hole_shift(b.uperiod, (own.ulo + own.uhi) * 0.5, b.umid);
    let sv = hole_shift(b.vperiod, (own.vlo + own.vhi) * 0.5, b.vmid);
    if stays(su, sv) {
        return area;
    }
    move_hole(t, su, sv)
}

// Loop k, which stands in the rows from one up to another: moved, unless it is the outer one.
fn rephase_loop(
    t: &mut [Corner],
    from: usize,
    to: usize,
    areas: &mut [f64],
    k: usize,
    outer: usize,
    b: Branch,
)
    requires { (from ≤ to) × (to ≤ length (rows t.old)) }
    ensures t_after { rows t.new ≡ on_part (loop_then outer b k) from to (rows t.old) }
    ensures areas_after { areas.new ≡ set areas.old k (area_then outer b k (take (to - from) (drop from (rows t.old))) (get_or areas.old k nan)) }
{
    if k == outer {
        return;
    }
    let area = rephase_hole(&mut t[from..to], at(areas, k), b);
    put(areas, k, area);
}

// Every loop but the outer one, with its area. Nothing is moved where that loop is none of theirs, or
// where the loops have no area each. The table is lent beside its counts and in no struct, which would
// owe a clause on what it gives back.
// The place is kept by hand: with what is left of the table in a variable
// (`split_at_mut`) the proof did not close, as a loop keeps nothing of what a borrow that is handed on
// gives back.
pub fn rephase_holes(
    t: &mut [Corner],
    counts: &[usize],
    areas: &mut [f64],
    outer: usize,
    u: Option<f64>,
    v: Option<f64>,
)
    ensures t_after { rows t.new ≡ rephased_rows outer (period_length u) (period_length v) (pieces counts.now (rows t.old)) areas.old (rows t.old) }
    ensures areas_after { areas.new ≡ rephased_areas outer (period_length u) (period_length v) (pieces counts.now (rows t.old)) areas.old }
{
    if counts.len() <= outer {
        return;
    }
    if areas.len() < counts.len() {
        return;
    }
    let b = branch_of(loop_of(Loops { corners: t, counts }, outer), u, v);
    let mut from = 0;
    for (k, &n) in counts.iter().enumerate() {
        let to = piece_end(t.len(), from, n);
        rephase_loop(t, from, to, areas, k, outer, b);
        from = to;
    }
}
