// The heights of a wall, and the surface points that stand there. What asks for no frame takes the surface
// and the tolerances, and no patch, which would ask more of callers.
ghost use Rattle.std.specs.Prelude.{◌≡◌, map, length};
ghost use Rattle.std.proofs.lemmas.List.Edits.{sets};
ghost use Rattle.lists.specs.Placed.{placed};
ghost use Rattle.surfaces.specs.Rungs.{kept_left};
ghost use Rattle.bands.specs.Columns.{heights_on, heights_kept};
ghost use Rattle.tables.specs.Rows.{rows};
ghost use Rattle.strip.specs.Corners.{heights_between, row_on, wall_between, wall_kept};

use numbers::math::Vec2;
use numbers::order::{max, min};
use surfaces::knots::{KeptDivisions, inner_count};
use surfaces::options::Resolved;
use surfaces::patch::Patch;
use surfaces::steps::v_steps;
use surfaces::surface::Surface;
use tables::corners::Corner;

// How many corners a wall has between the two rings. 02, N2 changes neither them nor their heights.
pub fn wall_count(surface: Surface, options: Resolved, lower: f64, upper: f64) -> usize
    ensures value { result ≡ length (heights_on surface options lower upper) }
    ensures as_kept { result ≡ length (heights_kept surface options lower upper) }
{
    let lo = min(lower, upper);
    let hi = max(lower, upper);
    inner_count(lo, hi, v_steps(surface, lo, hi, options))
}

// How many corners a wall between two rings has.
pub fn inner_between(
    lower: &[Corner],
    upper: &[Corner],
    surface: Surface,
    options: Resolved,
) -> usize
    ensures { result ≡ length (heights_between surface options (rows lower.now) (rows upper.now)) }
{
    let [l, ..] = lower else {
        return 0;
    };
    let [u, ..] = upper else {
        return 0;
    };
    wall_count(surface, options, l.v, u.v)
}

// The surface points at u and at each v that `heights` gives, in the front of the wall's table, as many
// as there is room for.
fn raise_up(wall: &mut [Corner], patch: Patch, u: f64, heights: KeptDivisions)
    ensures { rows wall.new ≡ sets (rows wall.old) 0 (map (row_on patch u) (kept_left heights)) }
{
    for (k, v) in heights.enumerate() {
        if k == wall.len() {
            return;
        }
        let at = patch.point_at(Vec2 { u, v });
        wall[k] = Corner { u, v, at };
    }
}

// A wall that has just as many corners as there are heights. It is always raised from the lesser v, and
// reversed where that is not the lower ring's, so that a wall read downward has the same corners to the
// bit. The last of the divisions that are kept has no place in it: a ring stands there.
fn raise(wall: &mut [Corner], patch: Patch, u: f64, lower: f64, upper: f64)
    requires { length wall.old ≡ length (heights_on patch.surface patch.options lower upper) }
    ensures { rows wall.new ≡ map (row_on patch u) (heights_on patch.surface patch.options lower upper) }
{
    let lo = min(lower, upper);
    let hi = max(lower, upper);
    let steps = v_steps(patch.surface, lo, hi, patch.options);
    raise_up(wall, patch, u, KeptDivisions::new(lo, hi, steps));
    if lower <= upper {
        return;
    }
    wall.reverse();
}

// The wall between two rings, in the front of a table; nothing is written where it does not fit. Both
// walls of a strip take their points at one u, so that they agree to the bit: it is raised once and
// read both ways.
pub fn raise_wall(wall: &mut [Corner], lower: &[Corner], upper: &[Corner], patch: Patch)
    ensures raised { rows wall.new ≡ placed 0 (wall_between patch (rows lower.now) (rows upper.now)) (rows wall.old) }
    ensures as_kept { rows wall.new ≡ placed 0 (wall_kept patch (rows lower.now) (rows upper.now)) (rows wall.old) }
{
    let [l, ..] = lower else {
        return;
    };
    let [u, ..] = upper else {
        return;
    };
    let n = wall_count(patch.surface, patch.options, l.v, u.v);
    if wall.len() < n {
        return;
    }
    raise(&mut wall[..n], patch, l.u, l.v, u.v);
}
