// The five kinds of surface, their domains, step counts and rungs.
ghost use Rattle.std.specs.Prelude.{◌≡◌, ◌+◌, ◌-◌, length, drop};
ghost use Rattle.std.proofs.lemmas.List.Edits.{sets};
ghost use Rattle.surfaces.specs.Domains.{domain_of};
ghost use Rattle.surfaces.specs.Points as Points;
ghost use Rattle.surfaces.specs.Rungs.{kept_divisions, rungs, EndsOn, EndWritten, inner};
ghost use Rattle.surfaces.specs.Steps.{v_steps_of, direction_steps_of};
ghost use Rattle.compared.specs.Surfaces.{surface_of, axis_of, resolved_of, period_of, ends_of};

use numbers::math::{Frame, Vec2, Vec3};
use surfaces::options::Resolved;
use surfaces::steps::Axis;
use surfaces::surface::{Domain, Surface};

// A domain: its ends, and its periods or 0.
#[repr(C)]
#[derive(Clone, Copy)]
pub struct DomainEnds {
    pub ulo: f64,
    pub uhi: f64,
    pub vlo: f64,
    pub vhi: f64,
    pub uperiod: f64,
    pub vperiod: f64,
}

pub fn surface_of(kind: u32, a: f64, b: f64) -> Surface
    ensures { result ≡ surface_of kind a b }
{
    match kind {
        0 => Surface::Plane,
        1 => Surface::Cylinder { radius: a },
        2 => Surface::Cone {
            radius: a,
            half_angle: b,
        },
        3 => Surface::Sphere { radius: a },
        _ => Surface::Torus {
            major_radius: a,
            minor_radius: b,
        },
    }
}

fn axis_of(along: bool) -> Axis
    ensures { result ≡ axis_of along }
{
    if along { Axis::U } else { Axis::V }
}

pub fn period_of(length: f64) -> Option<f64>
    ensures { result ≡ period_of length }
{
    if length == 0.0 { None } else { Some(length) }
}

impl From<Domain> for DomainEnds {
    ghost from_gives = { λ domain ends. ends ≡ ends_of domain };

    fn from(domain: Domain) -> DomainEnds {
        DomainEnds {
            ulo: domain.u.lo,
            uhi: domain.u.hi,
            vlo: domain.v.lo,
            vhi: domain.v.hi,
            uperiod: domain.u_period.unwrap_or(0.0),
            vperiod: domain.v_period.unwrap_or(0.0),
        }
    }
}

#[unsafe(no_mangle)]
pub extern "C" fn compared_point_at(kind: u32, a: f64, b: f64, frame: Frame, u: f64, v: f64) -> Vec3
    ensures { result ≡ Points.point_of frame (surface_of kind a b) u v }
{
    surface_of(kind, a, b).point_at(frame, Vec2 { u, v })
}

#[unsafe(no_mangle)]
pub extern "C" fn compared_domain(kind: u32, a: f64, b: f64) -> DomainEnds
    ensures { result ≡ ends_of (domain_of (surface_of kind a b)) }
{
    DomainEnds::from(surface_of(kind, a, b).domain())
}

#[unsafe(no_mangle)]
pub extern "C" fn compared_v_steps(
    kind: u32,
    a: f64,
    b: f64,
    from: f64,
    to: f64,
    sag: f64,
    angle: f64,
    segments: usize,
) -> usize
    ensures { result ≡ v_steps_of (surface_of kind a b) from to (resolved_of sag angle segments) }
{
    surfaces::steps::v_steps(
        surface_of(kind, a, b),
        from,
        to,
        Resolved {
            sag,
            angle,
            min_edge_segments: segments,
        },
    )
}

#[unsafe(no_mangle)]
pub extern "C" fn compared_direction_steps(
    kind: u32,
    a: f64,
    b: f64,
    along: bool,
    lo: f64,
    hi: f64,
    other: f64,
    sag: f64,
    angle: f64,
    segments: usize,
) -> usize
    ensures { result ≡ direction_steps_of (surface_of kind a b) (axis_of along) lo hi other (resolved_of sag angle segments) }
{
    surfaces::steps::direction_steps(
        surface_of(kind, a, b),
        axis_of(along),
        lo,
        hi,
        other,
        Resolved {
            sag,
            angle,
            min_edge_segments: segments,
        },
    )
}

#[unsafe(no_mangle)]
pub extern "C" fn compared_merge_even_steps(lo: f64, hi: f64, n: usize) -> usize
    ensures value { result ≡ length (rungs lo hi n) - 1 }
    ensures ends_on { EndsOn lo hi result (rungs lo hi n) }
{
    surfaces::knots::merge_even_steps(lo, hi, n)
}

#[unsafe(no_mangle)]
pub extern "C" fn compared_merge_even(lo: f64, hi: f64, n: usize, from: usize, out: &mut [f64])
    ensures out_after { out.new ≡ sets out.old 0 (drop from (rungs lo hi n)) }
    ensures end_written { EndWritten lo hi n from out.new }
{
    surfaces::knots::merge_even(lo, hi, n, from, out);
}

#[unsafe(no_mangle)]
pub extern "C" fn compared_inner_into(lo: f64, hi: f64, n: usize, out: &mut [f64]) -> usize
    ensures value { result ≡ length (inner (rungs lo hi n)) }
    ensures out_after { out.new ≡ sets out.old 0 (inner (rungs lo hi n)) }
    ensures ends_on { EndsOn lo hi (result + 1) (rungs lo hi n) }
    ensures out_as_kept { out.new ≡ sets out.old 0 (inner (kept_divisions lo hi n)) }
{
    surfaces::knots::inner_into(lo, hi, n, out)
}
