// The corners of a strip by value, one by one: nothing of the strip is laid out before its repeats
// are dropped.
ghost use Rattle.std.specs.Prelude.{◌≡◌, ◌++◌, reverse, length, get_or};
ghost use Rattle.tables.specs.Rows.{rows, corner_of, none};
ghost use Rattle.strip.specs.Corners.{at_u, far_side, strip_with};
ghost use Rattle.strip.specs.Count.{capped, strip_count};

use super::count::strip_count;
use tables::corners::{Corner, corner_at};

// How many corners the strip has before its repeats are dropped, with `inner` of them in each wall;
// usize::MAX where there are more.
pub fn strip_rows(lower: &[Corner], upper: &[Corner], inner: usize) -> usize
    ensures { result ≡ capped (strip_count (length (rows lower.now)) (length (rows upper.now)) inner) }
{
    let n = lower.len();
    let m = upper.len();
    if n.min(m) == 0 {
        return n + m;
    }
    strip_count(n, m, inner)
}

fn moved_to(c: Corner, u: f64) -> Corner
    ensures { corner_of result ≡ at_u u (corner_of c) }
{
    Corner { u, ..c }
}

// Row i of a table read from its end.
fn from_end(t: &[Corner], i: usize) -> Corner
    ensures { corner_of result ≡ get_or (reverse (rows t.now)) i none }
{
    let n = t.len();
    if i < n {
        return t[n - 1 - i];
    }
    corner_at(t, n)
}

// Corner i of the way back: the upper ring and then the wall, each from its end.
fn back_corner(upper: &[Corner], wall: &[Corner], i: usize) -> Corner
    ensures { corner_of result ≡ get_or (reverse (rows upper.now) ++ reverse (rows wall.now)) i none }
{
    let m = upper.len();
    if i < m {
        return from_end(upper, i);
    }
    from_end(wall, i - m)
}

// Corner i of what comes behind the corner where the first wall begins.
fn far_corner(upper: &[Corner], wall: &[Corner], end: f64, i: usize) -> Corner
    ensures { corner_of result ≡ get_or (far_side end (rows upper.now) (rows wall.now)) i none }
{
    let k = wall.len();
    if i < k {
        return moved_to(wall[i], end);
    }
    if i == k {
        return moved_to(corner_at(upper, 0), end);
    }
    back_corner(upper, wall, i - k - 1)
}

// Corner i of the strip: lower ring, wall, upper ring from its end, wall from its end.
pub fn strip_corner(
    lower: &[Corner],
    upper: &[Corner],
    wall: &[Corner],
    period: f64,
    i: usize,
) -> Corner
    ensures { corner_of result ≡ get_or (strip_with period (rows lower.now) (rows upper.now) (rows wall.now)) i none }
{
    let n = lower.len();
    if i < n {
        return lower[i];
    }
    let past = i - n;
    if n.min(upper.len()) == 0 {
        return from_end(upper, past);
    }
    let first = corner_at(lower, 0);
    let end = first.u + period;
    if past == 0 {
        return moved_to(first, end);
    }
    far_corner(upper, wall, end, past - 1)
}
