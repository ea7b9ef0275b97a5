// A table of reals, five to a corner, as corners.
ghost use Rattle.std.specs.Prelude.{◌≡◌, ◌++◌};
ghost use Rattle.std.specs.Borrow.{sem, LendsBoth, Array, f64};
ghost use Rattle.tables.specs.contracts.corners.Corner.{the_row};
ghost use Rattle.views.specs.Tables.{corners_of, rest_of, reals_of};

use std::slice::from_raw_parts_mut;
use tables::corners::Corner;

// The corners of the whole rows, and what stands behind the last whole row.
pub fn split_corners_mut(t: &mut [f64]) -> (&mut [Corner], &mut [f64])
    ensures* writes_back { sem 𝓛 (LendsBoth (Array f64 0) (Array the_row 0) (Array f64 0) t.entry result (λ cs rs. reals_of cs ++ rs)) }
    ensures value { (result.0.now ≡ corners_of t.old) × (result.1.now ≡ rest_of t.old) }
{
    let n = t.len();
    let count = n / 5;
    let p = t.as_mut_ptr();
    unsafe {
        (
            from_raw_parts_mut(p as *mut Corner, count),
            from_raw_parts_mut(p.add(count * 5), n % 5),
        )
    }
}
