// How many steps `face.rs` gives a wall and a direction of a whole surface. They ask for no frame, so they
// take the surface and the tolerances, and no patch.
ghost use Rattle.std.specs.Prelude.{◌≡◌};
ghost use Rattle.surfaces.specs.Steps.{v_steps_of, direction_steps_of, around_steps, along_steps, arc_steps};

use super::options::Resolved;
use super::surface::Surface;
use numbers::order::max;
use numbers::trig::cos;

// A direction of a surface. An enum, as there are two and no more, which definitions name: it is
// matched, not called.
#[derive(Clone, Copy)]
pub enum Axis {
    U,
    V,
}

// Steps along v, where that is an arc: of a sphere and of a torus.
fn arc_steps(surface: Surface, span: f64, options: Resolved) -> Option<usize>
    ensures { result ≡ arc_steps surface span options }
{
    match surface {
        Surface::Sphere { radius } => Some(options.segments_for_arc(radius, span)),
        Surface::Torus { minor_radius, .. } => Some(options.segments_for_arc(minor_radius, span)),
        Surface::Plane | Surface::Cylinder { .. } | Surface::Cone { .. } => None,
    }
}

// Steps of a wall from one v to another: a straight line needs no more than the least number.
#[tactic(auto, using(crate::proofs::steps::Arcs::wall_by_arc))]
pub fn v_steps(surface: Surface, from: f64, to: f64, options: Resolved) -> usize
    ensures { result ≡ v_steps_of surface from to options }
{
    arc_steps(surface, to - from, options).unwrap_or(options.min_edge_segments.max(1))
}

// Steps of a whole surface in one direction from lo to hi, where the other parameter is `other`.
#[tactic(auto, unfolding(crate::specs::Steps::direction_steps_of))]
pub fn direction_steps(
    surface: Surface,
    axis: Axis,
    lo: f64,
    hi: f64,
    other: f64,
    options: Resolved,
) -> usize
    ensures { result ≡ direction_steps_of surface axis lo hi other options }
{
    match axis {
        Axis::U => around_steps(surface, hi - lo, other, options),
        Axis::V => along_steps(surface, hi - lo, options),
    }
}

// A parallel of a sphere shrinks toward the poles; of a torus the widest circle counts.
#[tactic(auto, using(numbers::proofs::order::Laws::size_is))]
fn around_steps(surface: Surface, span: f64, v: f64, options: Resolved) -> usize
    ensures { result ≡ around_steps surface span v options }
{
    match surface {
        Surface::Sphere { radius } => options.segments_for_arc(
            radius * max(cos(v).abs(), 1e-3),
            span,
        ),
        Surface::Torus {
            major_radius,
            minor_radius,
        } => options.segments_for_arc(major_radius + minor_radius.abs(), span),
        Surface::Plane | Surface::Cylinder { .. } | Surface::Cone { .. } => 1,
    }
}

#[tactic(auto, using(crate::proofs::steps::Arcs::along_by_arc))]
fn along_steps(surface: Surface, span: f64, options: Resolved) -> usize
    ensures { result ≡ along_steps surface span options }
{
    arc_steps(surface, span, options).unwrap_or(1)
}
