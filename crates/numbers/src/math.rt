// Points, directions and frames of `math.rs`, each operation in the order of the Rust and rounded
// once.
ghost use Rattle.std.specs.Prelude.{◌≡◌};
ghost use Rattle.numbers.specs.Vectors.{plus_of, minus_of, times_of, dot_of, cross_of, length_of, direction_of, normalized_or, lesser_at, least_at, least_axis, perpendicular_of};
ghost use Rattle.numbers.specs.Frames.{frame_of, y_of, polar_of};
ghost use Rattle.numbers.specs.Position.{same};

use super::root::sqrt;
use super::trig::sin_cos;

// 2^-511, the root of the least normal real.
const SHORTEST: f64 = 1.4916681462400413e-154;

#[derive(Clone, Copy)]
pub struct Vec2 {
    pub u: f64,
    pub v: f64,
}

// The layout is C's, as that of the tables of corners that hold positions; so is a frame's, that the
// comparison with the Rust can pass one.
#[repr(C)]
#[derive(Clone, Copy, PartialEq)]
pub struct Vec3 {
    pub x: f64,
    pub y: f64,
    pub z: f64,
}

#[repr(C)]
#[derive(Clone, Copy)]
pub struct Frame {
    pub origin: Vec3,
    pub axis: Vec3,
    pub reference: Vec3,
}

#[derive(Clone, Copy)]
pub struct Interval {
    pub lo: f64,
    pub hi: f64,
}

impl Vec3 {
    pub fn plus(self, o: Vec3) -> Vec3
        ensures { result ≡ plus_of self o }
    {
        Vec3 {
            x: self.x + o.x,
            y: self.y + o.y,
            z: self.z + o.z,
        }
    }

    pub fn minus(self, o: Vec3) -> Vec3
        ensures { result ≡ minus_of self o }
    {
        Vec3 {
            x: self.x - o.x,
            y: self.y - o.y,
            z: self.z - o.z,
        }
    }

    pub fn times(self, s: f64) -> Vec3
        ensures { result ≡ times_of self s }
    {
        Vec3 {
            x: self.x * s,
            y: self.y * s,
            z: self.z * s,
        }
    }

    pub fn dot(self, o: Vec3) -> f64
        ensures { result ≡ dot_of self o }
    {
        self.x * o.x + self.y * o.y + self.z * o.z
    }

    pub fn cross(self, o: Vec3) -> Vec3
        ensures { result ≡ cross_of self o }
    {
        Vec3 {
            x: self.y * o.z - self.z * o.y,
            y: self.z * o.x - self.x * o.z,
            z: self.x * o.y - self.y * o.x,
        }
    }

    // Whether the two are one position: equal as numbers, so that 0.0 and -0.0 are.
    #[tactic(auto, unfolding(crate::specs::Position::same))]
    pub fn same(self, o: Vec3) -> bool
        ensures { result ≡ same self o }
    {
        self == o
    }

    #[tactic(auto, unfolding(crate::specs::Vectors::length_of))]
    pub fn length(self) -> f64
        ensures { result ≡ length_of self }
    {
        sqrt(self.dot(self))
    }

    // The vector times 1 / length, where the length is finite and above 2^-511.
    #[tactic(auto, using(crate::proofs::order::Laws::finite_is), unfolding(crate::specs::Vectors::direction_of))]
    pub fn try_normalized(self) -> Option<Vec3>
        ensures { result ≡ direction_of self }
    {
        let n = self.length();
        if n.is_finite() && n > SHORTEST {
            Some(self.times(1.0 / n))
        } else {
            None
        }
    }

    #[tactic(auto, unfolding(crate::specs::Vectors::normalized_or))]
    pub fn normalized_or(self, fallback: Vec3) -> Vec3
        ensures { result ≡ normalized_or self fallback }
    {
        self.try_normalized().unwrap_or(fallback)
    }

    // The unit axis that self is least along.
    #[tactic(auto, using(crate::proofs::order::Laws::size_is), unfolding(crate::specs::Vectors::least_axis))]
    fn least_axis(self) -> Vec3
        ensures { result ≡ least_axis self }
    {
        least_of(self.x.abs(), self.y.abs(), self.z.abs())
    }

    #[tactic(auto, unfolding(crate::specs::Vectors::perpendicular_of))]
    pub fn any_perpendicular(self) -> Vec3
        ensures { result ≡ perpendicular_of self }
    {
        self.cross(self.least_axis()).normalized_or(Vec3 {
            x: 1.0,
            y: 0.0,
            z: 0.0,
        })
    }
}

// The axis of the least of three sizes: x where it is less than y and z, else y where it is less than z.
fn least_of(x: f64, y: f64, z: f64) -> Vec3
    ensures { result ≡ least_at x y z }
{
    if x < y && x < z {
        Vec3 {
            x: 1.0,
            y: 0.0,
            z: 0.0,
        }
    } else {
        lesser_of(y, z)
    }
}

fn lesser_of(y: f64, z: f64) -> Vec3
    ensures { result ≡ lesser_at y z }
{
    if y < z {
        Vec3 {
            x: 0.0,
            y: 1.0,
            z: 0.0,
        }
    } else {
        Vec3 {
            x: 0.0,
            y: 0.0,
            z: 1.0,
        }
    }
}

impl Frame {
    // The axis and the reference direction made perpendicular and of length one.
    #[tactic(auto, unfolding(crate::specs::Frames::frame_of))]
    pub fn new(origin: Vec3, axis: Vec3, reference: Vec3) -> Frame
        ensures { result ≡ frame_of origin axis reference }
    {
        let z = axis.normalized_or(Vec3 {
            x: 0.0,
            y: 0.0,
            z: 1.0,
        });
        let projected = reference.minus(z.times(reference.dot(z)));
        Frame {
            origin,
            axis: z,
            reference: projected.normalized_or(z.any_perpendicular()),
        }
    }

    pub fn y_dir(self) -> Vec3
        ensures { result ≡ y_of self }
    {
        let z = self.axis;
        let x = self.reference;
        z.cross(x)
    }

    // The point at the angle theta and the distance r from the axis.
    #[tactic(auto, unfolding(crate::specs::Frames::polar_of))]
    pub fn polar(self, r: f64, theta: f64) -> Vec3
        ensures { result ≡ polar_of self r theta }
    {
        let o = self.origin;
        let x = self.reference;
        let y = self.y_dir();
        let a = sin_cos(theta);
        o.plus(x.times(r * a.cos)).plus(y.times(r * a.sin))
    }
}
