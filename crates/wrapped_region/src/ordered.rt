// The strip between two rings, the lower one first: by their mean v, and on a torus by their travel
// too, with the upper one lifted where the strip crosses v's seam. The rings are lent one beside the
// other and in no struct, which would be no plainer: a function that takes a `&mut` inside a struct owes
// a clause on what it gives back.
ghost use Rattle.std.specs.Prelude.{◌≡◌, Bool, map, if◌then◌else◌};
ghost use Rattle.surfaces.specs.Domains.{v_period};
ghost use Rattle.tables.specs.Corners.{move_v};
ghost use Rattle.tables.specs.Rows.{rows};
ghost use Rattle.bands.specs.Columns.{setting_on};
ghost use Rattle.strip.specs.Closing.{room_for, closing_of, closed_into};
ghost use Rattle.wrapped_region.specs.Ordered.{lifted_by, first_lower, lower_of, upper_of};
ghost use Rattle.wrapped_region.specs.Rings.{rings_of};

use super::mean::mean_v;
use super::order::{crosses, first_is_lower};
use strip::closing::{Closed, TooMany, close_strip};
use surfaces::patch::Patch;
use tables::corners::Corner;
use tables::moves::{Move, move_v};

// The upper ring one period up along v, where the band crosses v's seam.
fn lift_ring(t: &mut [Corner], period: Option<f64>, crosses: bool)
    ensures { rows t.new ≡ map (move_v (lifted_by period crosses)) (rows t.old) }
{
    match period {
        Some(p) if crosses => move_v(t, Move::Up(p)),
        _ => {}
    }
}

// The strip between a lower ring and an upper one, which is lifted first, and stays so.
fn close_between(
    lower: &[Corner],
    upper: &mut [Corner],
    crosses: bool,
    patch: Patch,
    period: f64,
    wall: &mut [Corner],
    out: &mut [Corner],
) -> Result<Closed, TooMany>
    ensures value { (sense : Bool) → result ≡ closing_of (setting_on patch period sense) (rows lower.now) (map (move_v (lifted_by (v_period patch.surface) crosses)) (rows upper.old)) (room_for wall.old out.old) }
    ensures out_after { (sense : Bool) → rows out.new ≡ closed_into (setting_on patch period sense) (rows lower.now) (map (move_v (lifted_by (v_period patch.surface) crosses)) (rows upper.old)) (room_for wall.old out.old) (rows out.old) }
    ensures upper_after { rows upper.new ≡ map (move_v (lifted_by (v_period patch.surface) crosses)) (rows upper.old) }
{
    lift_ring(upper, patch.surface.v_period(), crosses);
    close_strip(lower, upper, patch, period, wall, out)
}

// The strip between two rings into the front of `out`, as `close_strip` closes it; with1 and with2 say
// whether the first and the later one go with the face. The wall is scratch. The upper ring stays
// lifted, the lower one as it was.
pub fn close_ordered(
    first: &mut [Corner],
    later: &mut [Corner],
    with1: bool,
    with2: bool,
    patch: Patch,
    period: f64,
    wall: &mut [Corner],
    out: &mut [Corner],
) -> Result<Closed, TooMany>
    ensures value { (sense : Bool) → result ≡ closing_of (setting_on patch period sense) (lower_of (setting_on patch period sense) with1 with2 (rings_of first.old later.old)) (upper_of (setting_on patch period sense) with1 with2 (rings_of first.old later.old)) (room_for wall.old out.old) }
    ensures out_after { (sense : Bool) → rows out.new ≡ closed_into (setting_on patch period sense) (lower_of (setting_on patch period sense) with1 with2 (rings_of first.old later.old)) (upper_of (setting_on patch period sense) with1 with2 (rings_of first.old later.old)) (room_for wall.old out.old) (rows out.old) }
    ensures first_after { (sense : Bool) → rows first.new ≡ (if first_lower (setting_on patch period sense) with1 with2 (rings_of first.old later.old) then rows first.old else upper_of (setting_on patch period sense) with1 with2 (rings_of first.old later.old)) }
    ensures later_after { (sense : Bool) → rows later.new ≡ (if first_lower (setting_on patch period sense) with1 with2 (rings_of first.old later.old) then upper_of (setting_on patch period sense) with1 with2 (rings_of first.old later.old) else rows later.old) }
{
    let mean1 = mean_v(first);
    let mean2 = mean_v(later);
    if first_is_lower(patch.surface.v_period(), with1, with2, mean1, mean2) {
        let crossed = crosses(with1, with2, mean1, mean2);
        return close_between(first, later, crossed, patch, period, wall, out);
    }
    let crossed = crosses(with2, with1, mean2, mean1);
    close_between(later, first, crossed, patch, period, wall, out)
}
