// The tolerances of `options.rs`, and how many segments they give an arc.
ghost use Rattle.std.specs.Prelude.{◌≡◌};
ghost use Rattle.surfaces.specs.Segments.{sag_angle, angle_step_of, segments_of};

use numbers::order::{max, min};
use numbers::trig::acos;
use std::num::saturating_f64_to_usize;

// How far a chord may leave its arc, how far a step may turn, and how few segments an edge may have.
#[derive(Clone, Copy)]
pub struct Resolved {
    pub sag: f64,
    pub angle: f64,
    pub min_edge_segments: usize,
}

impl Resolved {
    // The step that the sag allows on a circle of radius r. Where the whole circle is within the sag
    // only the angular limit is left.
    #[tactic(auto, unfolding(crate::specs::Segments::sag_angle))]
    fn sag_angle(self, r: f64) -> f64
        ensures { result ≡ sag_angle self r }
    {
        if r > self.sag {
            2.0 * acos((1.0 - self.sag / r).clamp(-1.0, 1.0))
        } else {
            self.angle
        }
    }

    // The angular step on a circle of radius r that honours both limits.
    #[tactic(auto, using(numbers::proofs::order::Laws::size_is), unfolding(crate::specs::Segments::angle_step_of))]
    pub fn angle_step_for_radius(self, r: f64) -> f64
        ensures { result ≡ angle_step_of self r }
    {
        max(min(self.sag_angle(r.abs()), self.angle), 1e-3)
    }

    // Segments that sweep `total` radians on the radius r.
    #[tactic(auto, using(numbers::proofs::order::Laws::size_is, numbers::proofs::rounding::Laws::ceil_is), unfolding(crate::specs::Segments::segments_of))]
    pub fn segments_for_arc(self, r: f64, total: f64) -> usize
        ensures { result ≡ segments_of self r total }
    {
        let step = self.angle_step_for_radius(r);
        let segments = saturating_f64_to_usize((total.abs() / step).ceil());
        segments.max(self.min_edge_segments).max(1)
    }
}
