// A table of reals, four to a box, as boxes.
ghost use Rattle.std.specs.Prelude.{◌≡◌, ◌++◌};
ghost use Rattle.std.specs.Borrow.{sem, LendsBoth, Array, f64};
ghost use Rattle.closed_region.specs.contracts.boxes.Bounds.{the_row};
ghost use Rattle.views.specs.BoxTables.{boxes_of, rest_of, reals_of};

use closed_region::boxes::Bounds;
use std::slice::from_raw_parts_mut;

// The boxes of the whole rows, and what stands behind the last whole row.
pub fn split_boxes_mut(t: &mut [f64]) -> (&mut [Bounds], &mut [f64])
    ensures* writes_back { sem 𝓛 (LendsBoth (Array f64 0) (Array the_row 0) (Array f64 0) t.entry result (λ bs rs. reals_of bs ++ rs)) }
    ensures value { (result.0.now ≡ boxes_of t.old) × (result.1.now ≡ rest_of t.old) }
{
    let n = t.len();
    let count = n / 4;
    let p = t.as_mut_ptr();
    unsafe {
        (
            from_raw_parts_mut(p as *mut Bounds, count),
            from_raw_parts_mut(p.add(count * 4), n % 4),
        )
    }
}
