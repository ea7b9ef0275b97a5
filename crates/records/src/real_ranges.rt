// The ranges of a face record's reals. The kind is the record's byte, over which they are defined.
ghost use Rattle.std.specs.Prelude.{◌≡◌, ◌&&◌};
ghost use Rattle.std.specs.Float.Ieee.{le};
ghost use Rattle.records.specs.Limits.{up_to, radius, second, u_range, v_range, head_range, uv_range, xyz_range};
ghost use Rattle.records.specs.Ranges.{range_of};

// The kinds, as a record numbers them.
const PLANE: u8 = 0;

const CONE: u8 = 2;

const TORUS: u8 = 4;

// From one real to another, both included. Not `Interval`, which is where a parameter of a surface lies.
#[derive(Clone, Copy)]
pub struct Range {
    low: f64,
    high: f64,
}

impl Range {
    // Compared as numbers: -0 counts as 0.
    pub fn contains(self, x: f64) -> bool
        ensures { result ≡ (le self.low x && le x self.high) }
    {
        self.low <= x && x <= self.high
    }
}

fn up_to(b: f64) -> Range
    ensures { range_of result ≡ up_to b }
{
    Range { low: -b, high: b }
}

#[tactic(auto, unfolding(crate::specs::Limits::radius))]
fn radius(kind: u8) -> Range
    ensures { range_of result ≡ radius kind }
{
    match kind {
        PLANE => Range {
            low: 0.0,
            high: 0.0,
        },
        CONE => Range {
            low: 0.0,
            high: 1000000.0,
        },
        _ => Range {
            low: 0.000001,
            high: 1000000.0,
        },
    }
}

#[tactic(auto, unfolding(crate::specs::Limits::second))]
fn second(kind: u8) -> Range
    ensures { range_of result ≡ second kind }
{
    match kind {
        CONE => up_to(1.5),
        TORUS => Range {
            low: 0.000001,
            high: 1000000.0,
        },
        _ => Range {
            low: 0.0,
            high: 0.0,
        },
    }
}

#[tactic(auto, unfolding(crate::specs::Limits::u_range))]
fn u_range(kind: u8) -> Range
    ensures { range_of result ≡ u_range kind }
{
    up_to(if kind == PLANE { 1000000.0 } else { 64.0 })
}

#[tactic(auto, unfolding(crate::specs::Limits::v_range))]
fn v_range(kind: u8) -> Range
    ensures { range_of result ≡ v_range kind }
{
    up_to(if kind <= CONE { 1000000.0 } else { 64.0 })
}

// `kind` is the record's byte: the ranges are defined over it, so a kind of our own would be turned back into
// it here, and would be no plainer.
#[tactic(auto, unfolding(crate::specs::Limits::head_range))]
pub fn head_range(kind: u8, i: usize) -> Range
    ensures { range_of result ≡ head_range kind i }
{
    match i {
        0..9 => up_to(1000000000.0),
        9 => radius(kind),
        10 => second(kind),
        11 => Range {
            low: 0.000001,
            high: 1000.0,
        },
        _ => Range {
            low: 0.001,
            high: 1.5,
        },
    }
}

// Parameter real j, from 0: u and v in turn. `kind` is the record's byte, as for `head_range`.
#[tactic(auto, unfolding(crate::specs::Limits::uv_range))]
pub fn uv_range(kind: u8, j: usize) -> Range
    ensures { range_of result ≡ uv_range kind j }
{
    if j % 2 == 0 {
        u_range(kind)
    } else {
        v_range(kind)
    }
}

pub fn xyz_range() -> Range
    ensures { range_of result ≡ xyz_range }
{
    up_to(1000000000.0)
}
