// How many whole periods a loop travels in u.
ghost use Rattle.std.specs.Prelude.{◌≡◌};
ghost use Rattle.loops.specs.Wrap.{turns_counted};

use numbers::rounding::round;
use std::num::saturating_f64_to_i32;

// Of `turns`, travel over period: the whole number that it is less than 0.15 off, unless that is 0.
#[tactic(auto, using(numbers::proofs::order::Laws::size_is), unfolding(crate::specs::Wrap::turns_counted))]
pub fn turns_counted(turns: f64) -> i32
    ensures { result ≡ turns_counted turns }
{
    let whole = round(turns);
    if whole.abs() >= 1.0 {
        if (turns - whole).abs() < 0.15 {
            return saturating_f64_to_i32(whole);
        }
    }
    0
}
