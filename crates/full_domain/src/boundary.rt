// The boundary of a surface that nothing trims, its whole parameter rectangle: how many corners it has,
// the rungs of each direction, and the position of a corner. What asks for no frame, or for no
// tolerances, takes the other two apart, and no patch, which would ask more of callers.
ghost use Rattle.std.specs.Prelude.{◌≡◌, cond, ◌-◌, ◌≤◌, length};
ghost use Rattle.std.specs.Float.Ieee.{le};
ghost use Rattle.std.proofs.lemmas.List.Edits.{sets};
ghost use Rattle.full_domain.specs.Boundary.{is_whole, clamped, centre, wrap_of, range_of, other_than, steps_of, rungs_of, RungsEnd, RungsWritten, CountEnds, whole_corners, position_of};

use numbers::math::{Frame, Interval, Vec2, Vec3};
use surfaces::knots::{merge_even, merge_even_steps};
use surfaces::options::Resolved;
use surfaces::steps::{Axis, direction_steps};
use surfaces::surface::Surface;

pub fn is_whole(surface: Surface) -> bool
    ensures { result ≡ is_whole surface }
{
    matches!(surface, Surface::Sphere { .. } | Surface::Torus { .. })
}

fn clamped(n: usize) -> usize
    ensures { result ≡ clamped n }
{
    n.clamp(3, 256)
}

fn centre(range: Interval) -> f64
    ensures { result ≡ centre range }
{
    0.5 * (range.lo + range.hi)
}

#[tactic(auto, unfolding(crate::specs::Boundary::wrap_of))]
fn wrap(period: Option<f64>, range: Interval, t: f64) -> f64
    ensures { result ≡ wrap_of period range t }
{
    match period {
        None => t,
        Some(_) => wrap_end(range, t),
    }
}

// The far end of a range is its near end again.
fn wrap_end(range: Interval, t: f64) -> f64
    ensures { result ≡ cond (le range.hi t) range.lo t }
{
    if t >= range.hi { range.lo } else { t }
}

pub fn range_of(surface: Surface, axis: Axis) -> Interval
    ensures { result ≡ range_of axis surface }
{
    let d = surface.domain();
    match axis {
        Axis::U => d.u,
        Axis::V => d.v,
    }
}

fn other_than(axis: Axis) -> Axis
    ensures { result ≡ other_than axis }
{
    match axis {
        Axis::U => Axis::V,
        Axis::V => Axis::U,
    }
}

#[tactic(auto, unfolding(crate::specs::Boundary::steps_of))]
fn steps(surface: Surface, axis: Axis, options: Resolved) -> usize
    ensures { result ≡ steps_of axis surface options }
{
    let along = range_of(surface, axis);
    let across = range_of(surface, other_than(axis));
    clamped(direction_steps(surface, axis, along.lo, along.hi, centre(across), options))
}

// How many corners a side has, less its last one, which begins the next side.
pub fn side_count(surface: Surface, axis: Axis, options: Resolved) -> usize
    ensures value { (result ≡ length (rungs_of axis surface options) - 1) × (result ≤ 256) }
    ensures rungs_end { RungsEnd axis surface options result }
{
    let along = range_of(surface, axis);
    merge_even_steps(along.lo, along.hi, steps(surface, axis, options))
}

// The rungs of a direction, as many as there is room for. There are at most 257.
pub fn write_rungs(surface: Surface, axis: Axis, options: Resolved, out: &mut [f64])
    ensures out_after { out.new ≡ sets out.old 0 (rungs_of axis surface options) }
    ensures rungs_written { RungsWritten axis surface options out.new }
{
    let along = range_of(surface, axis);
    merge_even(along.lo, along.hi, steps(surface, axis, options), 0, out);
}

// How many corners the boundary has, and none for the kinds that have no whole.
pub fn full_domain_count(surface: Surface, options: Resolved) -> usize
    ensures value { result ≡ length (whole_corners surface options) }
    ensures count_ends { CountEnds surface options result }
{
    if is_whole(surface) {
        let su = side_count(surface, Axis::U, options);
        return 2 * (su + side_count(surface, Axis::V, options));
    }
    0
}

#[tactic(auto, unfolding(crate::specs::Boundary::position_of))]
pub fn position_at(surface: Surface, frame: Frame, c: Vec2) -> Vec3
    ensures { result ≡ position_of surface frame c }
{
    let d = surface.domain();
    let u = wrap(d.u_period, d.u, c.u);
    let v = wrap(d.v_period, d.v, c.v);
    surface.point_at(frame, Vec2 { u, v })
}
