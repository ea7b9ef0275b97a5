// A parameter shifted by whole periods.
ghost use Rattle.std.specs.Prelude.{◌≡◌};
ghost use Rattle.loops.specs.Branch.{branch_shift, nearest_branch, LandsNear, LeavesHalf};

use numbers::rounding::round;

// What is taken off `value` to bring it nearest to `reference`: whole periods.
pub fn branch_shift(value: f64, reference: f64, period: f64) -> f64
    ensures value { result ≡ branch_shift value reference period }
    ensures leaves_half { LeavesHalf value reference period result }
{
    period * round((value - reference) / period)
}

pub fn nearest_branch(value: f64, reference: f64, period: f64) -> f64
    ensures value { result ≡ nearest_branch value reference period }
    ensures lands_near { LandsNear value reference period result }
{
    if period <= 0.0 {
        return value;
    }
    value - branch_shift(value, reference, period)
}
