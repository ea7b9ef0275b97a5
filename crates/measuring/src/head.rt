// The surface, its frame and the tolerances, from the 13 reals before the points. A real that is
// not there is a NaN.
ghost use Rattle.std.specs.Prelude.{◌≡◌, ◌≤◌};
ghost use Rattle.records.specs.Face.{head_reals};
ghost use Rattle.call.specs.Face.{surface_of};
ghost use Rattle.measuring.specs.Head.{vector_at, frame_at, options_at};

use numbers::math::{Frame, Vec3};
use surfaces::options::Resolved;
use surfaces::surface::Surface;
use tables::slices::at;

// The kind, with its size and its second one.
// `kind` is the record's byte, and every byte is answered: an enum would ask more of callers. The function
// of this name in `compared` takes a C number.
#[tactic(auto, unfolding(call::specs::Face::surface_of))]
pub fn surface_of(kind: u8, a: f64, b: f64) -> Surface
    ensures { result ≡ surface_of kind a b }
{
    match kind {
        0 => Surface::Plane,
        1 => Surface::Cylinder { radius: a },
        2 => Surface::Cone {
            radius: a,
            half_angle: b,
        },
        3 => Surface::Sphere { radius: a },
        _ => Surface::Torus {
            major_radius: a,
            minor_radius: b,
        },
    }
}

#[tactic(auto, unfolding(crate::specs::Head::vector_at))]
fn vector_at(head: &[f64], i: usize) -> Vec3
    requires { i ≤ head_reals }
    ensures { result ≡ vector_at head.now i }
{
    Vec3 {
        x: at(head, i),
        y: at(head, i + 1),
        z: at(head, i + 2),
    }
}

#[tactic(auto, unfolding(crate::specs::Head::frame_at))]
pub fn frame_of(head: &[f64]) -> Frame
    ensures { result ≡ frame_at head.now }
{
    Frame::new(vector_at(head, 0), vector_at(head, 3), vector_at(head, 6))
}

#[tactic(auto, unfolding(crate::specs::Head::options_at))]
pub fn options_of(head: &[f64], segments: u8) -> Resolved
    ensures { result ≡ options_at head.now segments }
{
    Resolved {
        sag: at(head, 11),
        angle: at(head, 12),
        min_edge_segments: segments as usize,
    }
}
