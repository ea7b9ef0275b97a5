// One corner of a table, by value.
ghost use Rattle.std.specs.Prelude.{◌≡◌, get_or};
ghost use Rattle.tables.specs.Rows.{rows, corner_of, none};

use numbers::math::Vec3;

// The layout is C's, so that the comparison with the Rust can lend tables.
#[repr(C)]
#[derive(Clone, Copy)]
pub struct Corner {
    pub u: f64,
    pub v: f64,
    pub at: Vec3,
}

// What a place of a table holds until a corner is stored there.
pub const ORIGIN: Corner = Corner {
    u: 0.0,
    v: 0.0,
    at: Vec3 {
        x: 0.0,
        y: 0.0,
        z: 0.0,
    },
};

// What is read past the last row: all five are NaN.
fn no_corner() -> Corner
    ensures { corner_of result ≡ none }
{
    let nan = f64::NAN;
    Corner {
        u: nan,
        v: nan,
        at: Vec3 {
            x: nan,
            y: nan,
            z: nan,
        },
    }
}

// Past the last row all five are NaN.
pub fn corner_at(t: &[Corner], i: usize) -> Corner
    ensures { corner_of result ≡ get_or (rows t.now) i none }
{
    match t.get(i) {
        Some(c) => *c,
        None => no_corner(),
    }
}
