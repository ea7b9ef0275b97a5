// The five kinds of surface of `brep.rs` and `surface.rs`: points by the formulas of ISO 10303-42 in
// the operation order of the Rust, and parameter domains.
ghost use Rattle.std.specs.Prelude.{◌≡◌};
ghost use Rattle.surfaces.specs.Points.{plane_of, raised_of, sphere_of, torus_of, point_of};
ghost use Rattle.surfaces.specs.Domains.{unbounded, full_turn, u_period, v_period, u_range, v_range, cone_range, domain_of};

use numbers::math::{Frame, Interval, Vec2, Vec3};
use numbers::trig::{sin_cos, tan};
use std::f64::consts::{FRAC_PI_2, TAU};

// Stands for an end where a parameter has none: past any model, and with room for exact arithmetic.
const UNBOUNDED: f64 = 1e12;

// A kind with its own sizes. The frame stands beside it.
#[derive(Clone, Copy)]
pub enum Surface {
    Plane,
    Cylinder {
        radius: f64,
    },
    Cone {
        radius: f64,
        half_angle: f64,
    },
    Sphere {
        radius: f64,
    },
    Torus {
        major_radius: f64,
        minor_radius: f64,
    },
}

// The ranges of the parameters, and after how much each gives the same points again, if it does.
#[derive(Clone, Copy)]
pub struct Domain {
    pub u: Interval,
    pub v: Interval,
    pub u_period: Option<f64>,
    pub v_period: Option<f64>,
}

impl Surface {
    #[tactic(auto, unfolding(crate::specs::Domains::u_period))]
    pub fn u_period(self) -> Option<f64>
        ensures { result ≡ u_period self }
    {
        match self {
            Surface::Plane => None,
            Surface::Cylinder { .. }
            | Surface::Cone { .. }
            | Surface::Sphere { .. }
            | Surface::Torus { .. } => Some(TAU),
        }
    }

    #[tactic(auto, unfolding(crate::specs::Domains::v_period))]
    pub fn v_period(self) -> Option<f64>
        ensures { result ≡ v_period self }
    {
        match self {
            Surface::Plane
            | Surface::Cylinder { .. }
            | Surface::Cone { .. }
            | Surface::Sphere { .. } => None,
            Surface::Torus { .. } => Some(TAU),
        }
    }

    fn u_range(self) -> Interval
        ensures { result ≡ u_range self }
    {
        match self {
            Surface::Plane => unbounded(),
            Surface::Cylinder { .. }
            | Surface::Cone { .. }
            | Surface::Sphere { .. }
            | Surface::Torus { .. } => full_turn(),
        }
    }

    fn v_range(self) -> Interval
        ensures { result ≡ v_range self }
    {
        match self {
            Surface::Plane | Surface::Cylinder { .. } => unbounded(),
            Surface::Cone { radius, half_angle } => cone_range(radius, tan(half_angle)),
            Surface::Sphere { .. } => Interval {
                lo: -FRAC_PI_2,
                hi: FRAC_PI_2,
            },
            Surface::Torus { .. } => full_turn(),
        }
    }

    #[tactic(auto, unfolding(crate::specs::Domains::domain_of))]
    pub fn domain(self) -> Domain
        ensures { result ≡ domain_of self }
    {
        Domain {
            u: self.u_range(),
            v: self.v_range(),
            u_period: self.u_period(),
            v_period: self.v_period(),
        }
    }

    // The point at the parameters uv.
    #[tactic(auto, unfolding(crate::specs::Points::point_of))]
    pub fn point_at(self, frame: Frame, uv: Vec2) -> Vec3
        ensures { result ≡ point_of frame self uv.u uv.v }
    {
        match self {
            Surface::Plane => plane_at(frame, uv.u, uv.v),
            Surface::Cylinder { radius } => raised(frame, radius, uv.u, uv.v),
            Surface::Cone { radius, half_angle } => raised(
                frame,
                radius + uv.v * tan(half_angle),
                uv.u,
                uv.v,
            ),
            Surface::Sphere { radius } => sphere_at(frame, radius, uv.u, uv.v),
            Surface::Torus {
                major_radius,
                minor_radius,
            } => torus_at(frame, major_radius, minor_radius, uv.u, uv.v),
        }
    }
}

fn unbounded() -> Interval
    ensures { result ≡ unbounded }
{
    Interval {
        lo: -UNBOUNDED,
        hi: UNBOUNDED,
    }
}

fn full_turn() -> Interval
    ensures { result ≡ full_turn }
{
    Interval { lo: 0.0, hi: TAU }
}

// A cone ends at its apex, where the radius has come to zero, unless its sides are as good as
// parallel.
#[tactic(auto, using(numbers::proofs::order::Laws::size_is), unfolding(crate::specs::Domains::cone_range))]
fn cone_range(radius: f64, tan: f64) -> Interval
    ensures { result ≡ cone_range radius tan }
{
    if tan.abs() > 1e-12 {
        let apex = -radius / tan;
        if tan > 0.0 {
            return Interval {
                lo: apex,
                hi: UNBOUNDED,
            };
        }
        return Interval {
            lo: -UNBOUNDED,
            hi: apex,
        };
    }
    unbounded()
}

#[tactic(auto, unfolding(crate::specs::Points::plane_of))]
fn plane_at(frame: Frame, u: f64, v: f64) -> Vec3
    ensures { result ≡ plane_of frame u v }
{
    let o = frame.origin;
    let x = frame.reference;
    let y = frame.y_dir();
    o.plus(x.times(u)).plus(y.times(v))
}

// The point at the angle u and the distance r from the axis, and h along the axis.
#[tactic(auto, unfolding(crate::specs::Points::raised_of))]
fn raised(frame: Frame, r: f64, u: f64, h: f64) -> Vec3
    ensures { result ≡ raised_of frame r u h }
{
    let z = frame.axis;
    frame.polar(r, u).plus(z.times(h))
}

#[tactic(auto, unfolding(crate::specs::Points::sphere_of))]
fn sphere_at(frame: Frame, radius: f64, u: f64, v: f64) -> Vec3
    ensures { result ≡ sphere_of frame radius u v }
{
    let a = sin_cos(v);
    raised(frame, radius * a.cos, u, radius * a.sin)
}

#[tactic(auto, unfolding(crate::specs::Points::torus_of))]
fn torus_at(frame: Frame, major: f64, minor: f64, u: f64, v: f64) -> Vec3
    ensures { result ≡ torus_of frame major minor u v }
{
    let a = sin_cos(v);
    raised(frame, major + minor * a.cos, u, minor * a.sin)
}
