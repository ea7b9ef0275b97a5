// `close_strip` of face.rs: the strip between two rings of a band, freed of its repeats, with its
// area.
ghost use Rattle.std.specs.Prelude.{◌≡◌, Bool, ◌≤◌, length};
ghost use Rattle.lists.specs.Placed.{placed};
ghost use Rattle.loops.specs.Repeats.{drop_successive, drop_repeats, keep};
ghost use Rattle.bands.specs.Columns.{setting_on};
ghost use Rattle.tables.specs.Rows.{rows};
ghost use Rattle.strip.specs.Closing.{room_for, closed_as, closing_of, closed_into};
ghost use Rattle.strip.specs.Corners.{same_at, strip_with};

use super::corners::{strip_corner, strip_rows};
use super::repeats::{repeated_by, trim};
use super::walls::{inner_between, raise_wall};
use loops::rows::signed_area;
use surfaces::patch::Patch;
use tables::corners::Corner;
use tables::slices::part;

// How many corners are left, and the area they enclose in u and v.
#[derive(Clone, Copy)]
pub struct Closed {
    pub count: usize,
    pub area: f64,
}

// There is no room for the strip: how many corners it has before its repeats are dropped. The number
// saturates at usize::MAX: that is part of what is promised where a strip has more corners than a
// machine number holds.
#[derive(Clone, Copy)]
pub struct TooMany {
    pub corners: usize,
}

// The first pass over a strip of n corners: stores those that differ from the one kept before them,
// each when the next one that stays is found, and answers how many. The place and the one kept last stand
// by themselves, and an iterator over neighbours would be no plainer: the one kept last is no neighbour
// of the next, and is stored only when the next one that stays is found.
fn keep_successive(
    lower: &[Corner],
    upper: &[Corner],
    wall: &[Corner],
    period: f64,
    n: usize,
    out: &mut [Corner],
) -> usize
    requires { (n ≡ length (strip_with period (rows lower.now) (rows upper.now) (rows wall.now))) × (n ≤ length out.old) }
    ensures value { result ≡ length (drop_successive same_at keep (strip_with period (rows lower.now) (rows upper.now) (rows wall.now))) }
    ensures out_after { rows out.new ≡ placed 0 (drop_successive same_at keep (strip_with period (rows lower.now) (rows upper.now) (rows wall.now))) (rows out.old) }
{
    if n == 0 {
        return 0;
    }
    let mut last = strip_corner(lower, upper, wall, period, 0);
    let mut m = 0;
    for i in 1..n {
        let next = strip_corner(lower, upper, wall, period, i);
        if !repeated_by(last, next) {
            out[m] = last;
            m += 1;
            last = next;
        }
    }
    out[m] = last;
    m + 1
}

// A strip of n corners, whose wall stands, into the front of `out`, less its repeats. The repeats of
// the first at its end stay behind those that are counted.
fn close_rows(
    lower: &[Corner],
    upper: &[Corner],
    wall: &[Corner],
    period: f64,
    n: usize,
    out: &mut [Corner],
) -> Closed
    requires { (n ≡ length (strip_with period (rows lower.now) (rows upper.now) (rows wall.now))) × (n ≤ length out.old) }
    ensures value { result ≡ closed_as (drop_repeats same_at (strip_with period (rows lower.now) (rows upper.now) (rows wall.now))) }
    ensures out_after { rows out.new ≡ placed 0 (drop_successive same_at keep (strip_with period (rows lower.now) (rows upper.now) (rows wall.now))) (rows out.old) }
{
    let m = keep_successive(lower, upper, wall, period, n, out);
    let count = trim(part(out, 0, m));
    let area = signed_area(part(out, 0, count));
    Closed { count, area }
}

// The band between a lower and an upper ring in the front of `out`: how many corners it has, and
// their area. The wall is scratch. The strip is counted first: where there is no room for it, `out`
// stays as it is.
pub fn close_strip(
    lower: &[Corner],
    upper: &[Corner],
    patch: Patch,
    period: f64,
    wall: &mut [Corner],
    out: &mut [Corner],
) -> Result<Closed, TooMany>
    ensures value { (sense : Bool) → result ≡ closing_of (setting_on patch period sense) (rows lower.now) (rows upper.now) (room_for wall.old out.old) }
    ensures out_after { (sense : Bool) → rows out.new ≡ closed_into (setting_on patch period sense) (rows lower.now) (rows upper.now) (room_for wall.old out.old) (rows out.old) }
{
    let inner = inner_between(lower, upper, patch.surface, patch.options);
    let n = strip_rows(lower, upper, inner);
    let room = (2 * wall.len()).min(out.len());
    if room < n {
        return Err(TooMany { corners: n });
    }
    raise_wall(wall, lower, upper, patch);
    Ok(close_rows(lower, upper, part(wall, 0, inner), period, n, out))
}
