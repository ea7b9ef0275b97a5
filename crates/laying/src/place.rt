// Both rings with u rising, toward the least u of both. The rings are lent one beside the other and in no
// struct, which would be no plainer: a function that takes a `&mut` inside a struct owes a clause on
// what it gives back.
ghost use Rattle.std.specs.Prelude.{◌≡◌, List};
ghost use Rattle.numbers.specs.declared.math.Vec3.{Vec3};
ghost use Rattle.loops.specs.Branch.{LandsNear};
ghost use Rattle.tables.specs.Corners.{Corners, us};
ghost use Rattle.tables.specs.Rows.{rows};
ghost use Rattle.rings.specs.Choices.{first_of};
ghost use Rattle.bands.specs.Rings.{rising, shifted, laid};
ghost use Rattle.laying.specs.Held.{loop_in, given_in};

use loops::branch::branch_shift;
use rings::choices::first_of;
use rings::table_choices::least_u;
use tables::corners::Corner;
use tables::moves::{Move, slide};

// A ring by whole periods toward the least u.
pub fn shift(t: &mut [Corner], least: f64, period: f64)
    ensures t_after { rows t.new ≡ shifted period least (rows t.old) }
    ensures lands_near { LandsNear (first_of (us (rows t.old))) least period (first_of (us (rows t.new))) }
{
    let step = branch_shift(first_of(t), least, period);
    slide(t, Move::Down(step));
}

// A ring of negative travel is read backward.
fn rise(t: &mut [Corner], falls: bool)
    ensures { rows t.new ≡ rising (loop_in t.old falls) }
{
    if falls {
        t.reverse();
    }
}

// Both rings with u rising, shifted toward the least u of both.
pub fn lay_rings(
    first: &mut [Corner],
    later: &mut [Corner],
    first_falls: bool,
    later_falls: bool,
    period: f64,
)
    ensures first_after { (holes : List (Corners Vec3)) → rows first.new ≡ (laid period (given_in first.old later.old first_falls later_falls holes)).first }
    ensures later_after { (holes : List (Corners Vec3)) → rows later.new ≡ (laid period (given_in first.old later.old first_falls later_falls holes)).later }
{
    let least = least_u(first, later);
    rise(first, first_falls);
    shift(first, least, period);
    rise(later, later_falls);
    shift(later, least, period);
}
