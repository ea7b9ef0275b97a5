// `full_domain_loop` of face.rs, into a table: side after side, each along the rungs of one direction.
ghost use Rattle.std.specs.Prelude.{◌≡◌, map, ◌+◌, ◌-◌, ◌≤◌, ◌<◌, length, get_or};
ghost use Rattle.std.specs.Float.{nan};
ghost use Rattle.std.proofs.lemmas.List.Edits.{sets};
ghost use Rattle.lists.specs.Placed.{placed};
ghost use Rattle.surfaces.specs.declared.steps.Axis.TheVariants.{U, «V»};
ghost use Rattle.surfaces.specs.Domains.{domain_of};
ghost use Rattle.tables.specs.Rows.{rows, corner_of};
ghost use Rattle.full_domain.specs.Boundary.{rungs_of, corner_along, walked, side, sides, sides_of, area_within};
ghost use Rattle.full_domain.specs.Table.{placed_corner, whole_rows, RowsReach};

use super::boundary::{is_whole, position_at, range_of, side_count, write_rungs};
use loops::rows::signed_area;
use numbers::math::Vec2;
use surfaces::patch::Patch;
use surfaces::steps::Axis;
use tables::corners::Corner;
use tables::slices::{part, put};

// The rung of number i of a side.
fn rung_of(rungs: &[f64], back: bool, i: usize) -> f64
    requires { i + 1 < length rungs.now }
    ensures { result ≡ get_or (walked back rungs.now) i nan }
{
    if back {
        return rungs[rungs.len() - 1 - i];
    }
    rungs[i]
}

// The parameters at x on a side along the axis, where the other one is `fixed`.
fn along(axis: Axis, fixed: f64, x: f64) -> Vec2
    ensures { result ≡ corner_along axis fixed x }
{
    match axis {
        Axis::U => Vec2 { u: x, v: fixed },
        Axis::V => Vec2 { u: fixed, v: x },
    }
}

fn corner_along(patch: Patch, axis: Axis, fixed: f64, x: f64) -> Corner
    ensures { corner_of result ≡ placed_corner patch.surface patch.frame (corner_along axis fixed x) }
{
    let c = along(axis, fixed, x);
    Corner {
        u: c.u,
        v: c.v,
        at: position_at(patch.surface, patch.frame, c),
    }
}

// One side from row `start` on, as far as there is room, along its rungs forward or backward. No boundary
// has more than 1,024 corners, so places can be counted. `back` is a flag and no iterator: the definition
// of a side has it, and what a generic iterator gives would be a contract of its own.
fn put_side(
    patch: Patch,
    axis: Axis,
    fixed: f64,
    back: bool,
    rungs: &[f64],
    t: &mut [Corner],
    start: usize,
)
    requires { start + length rungs.now ≤ 1025 }
    ensures { rows t.new ≡ sets (rows t.old) start (map (placed_corner patch.surface patch.frame) (side axis fixed back rungs.now)) }
{
    for i in 0..rungs.len().saturating_sub(1) {
        let x = rung_of(rungs, back, i);
        put(t, start + i, corner_along(patch, axis, fixed, x));
    }
}

// The four sides, which are walked round the rectangle.
fn put_sides(patch: Patch, us: &[f64], vs: &[f64], t: &mut [Corner])
    requires { ((0 < length us.now) × (length us.now ≤ 257)) × ((0 < length vs.now) × (length vs.now ≤ 257)) }
    ensures { rows t.new ≡ sets (rows t.old) 0 (map (placed_corner patch.surface patch.frame) (sides us.now vs.now (domain_of patch.surface).u (domain_of patch.surface).v)) }
{
    let u = range_of(patch.surface, Axis::U);
    let v = range_of(patch.surface, Axis::V);
    let su = us.len() - 1;
    let sv = vs.len() - 1;
    put_side(patch, Axis::U, v.lo, false, us, t, 0);
    put_side(patch, Axis::V, u.hi, false, vs, t, su);
    put_side(patch, Axis::U, v.hi, true, us, t, su + sv);
    put_side(patch, Axis::V, u.lo, true, vs, t, su + sv + su);
}

// The boundary, with the rungs of both directions in arrays of their own.
fn put_boundary(patch: Patch, su: usize, sv: usize, t: &mut [Corner])
    requires { (su ≡ length (rungs_of U patch.surface patch.options) - 1) × (sv ≡ length (rungs_of «V» patch.surface patch.options) - 1) }
    ensures { rows t.new ≡ sets (rows t.old) 0 (map (placed_corner patch.surface patch.frame) (sides_of patch.surface patch.options)) }
{
    let mut us = [0.0; 257];
    let mut vs = [0.0; 257];
    write_rungs(patch.surface, Axis::U, patch.options, &mut us);
    write_rungs(patch.surface, Axis::V, patch.options, &mut vs);
    // `part` promises something for every count. A range asks for one within the array, which would have
    // to be shown for each of the two.
    put_sides(patch, part(&us, 0, su + 1), part(&vs, 0, sv + 1), t);
}

// Writes the boundary into the first rows, and answers its area. Where there is no room for all of it
// nothing is written and 0.0 answered, as for the kinds that have no whole.
pub fn full_domain_loop(patch: Patch, t: &mut [Corner]) -> f64
    ensures value { result ≡ area_within (length (rows t.old)) patch.surface patch.options }
    ensures t_after { rows t.new ≡ placed 0 (whole_rows patch.surface patch.frame patch.options) (rows t.old) }
    ensures rows_reach { RowsReach patch.surface patch.options (length (rows t.old)) (rows t.new) }
{
    if !is_whole(patch.surface) {
        return 0.0;
    }
    let su = side_count(patch.surface, Axis::U, patch.options);
    let sv = side_count(patch.surface, Axis::V, patch.options);
    let n = 2 * (su + sv);
    if t.len() < n {
        return 0.0;
    }
    put_boundary(patch, su, sv, t);
    signed_area(&t[..n])
}
