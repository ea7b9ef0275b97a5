// What is done to the rows of a table where they stand.
ghost use Rattle.std.specs.Prelude.{◌≡◌, map};
ghost use Rattle.tables.specs.Corners.{move_v};
ghost use Rattle.tables.specs.Moves.{moved_by, unless_zero};
ghost use Rattle.tables.specs.Rows.{rows};

use super::corners::Corner;
use super::ring_point::RingPoint;

// A step along u or v, or none: what comes round a ring has its u raised, and all else stays. An enum
// and not a closure: the definitions name the step, and a closure's contract is a relation, not a
// function of the step.
#[derive(Clone, Copy)]
pub enum Move {
    Stay,
    Up(f64),
    Down(f64),
}

pub fn moved(x: f64, m: Move) -> f64
    ensures { result ≡ moved_by m x }
{
    match m {
        Move::Stay => x,
        Move::Up(step) => x + step,
        Move::Down(step) => x - step,
    }
}

pub fn slide<T: RingPoint>(s: &mut [T], m: Move)
    ensures { s.new ≡ map (T.slid m) s.old }
{
    for x in s {
        *x = x.slid(m);
    }
}

// A step of zero is not made: -0.0 + 0.0 would be 0.0.
pub fn slide_unless_zero<T: RingPoint>(s: &mut [T], step: f64, m: Move)
    ensures { s.new ≡ unless_zero step (T.slid m) s.old }
{
    if step != 0.0 {
        slide(s, m);
    }
}

pub fn move_v(t: &mut [Corner], m: Move)
    ensures { rows t.new ≡ map (move_v (moved_by m)) (rows t.old) }
{
    for c in t {
        c.v = moved(c.v, m);
    }
}
