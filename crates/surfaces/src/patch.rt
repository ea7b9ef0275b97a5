// A surface where it stands, and the tolerances by which it is stepped: what walls and whole surfaces
// are made of.
ghost use Rattle.std.specs.Prelude.{◌≡◌};
ghost use Rattle.surfaces.specs.Points.{point_of};

use super::options::Resolved;
use super::surface::Surface;
use numbers::math::{Frame, Vec2, Vec3};

#[derive(Clone, Copy)]
pub struct Patch {
    pub surface: Surface,
    pub frame: Frame,
    pub options: Resolved,
}

impl Patch {
    // The point at the parameters uv.
    pub fn point_at(self, uv: Vec2) -> Vec3
        ensures { result ≡ point_of self.frame self.surface uv.u uv.v }
    {
        self.surface.point_at(self.frame, uv)
    }
}
