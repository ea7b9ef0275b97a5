// What a band decides by the u of a table's rows alone.
ghost use Rattle.std.specs.Prelude.{◌≡◌};
ghost use Rattle.loops.specs.Branch.{LeavesTurn};
ghost use Rattle.loops.specs.Span.{least_of, greatest_of};
ghost use Rattle.tables.specs.Corners.{us};
ghost use Rattle.tables.specs.Rows.{rows};
ghost use Rattle.rings.specs.Choices.{least_u, greatest_u, strip_shift, straddles, first_past, first_open_past};

use numbers::order::{max, min};
use tables::corners::Corner;
use tables::table_row::TableRow;

// Least and greatest are two functions: one over the operation would be told by a closure, whose contract
// is a relation and no function.
pub fn least<R: TableRow>(t: &[R]) -> f64
    ensures { result ≡ least_of (us (R.rows_of t.now)) }
{
    let mut lo = f64::INFINITY;
    for c in t {
        lo = min(lo, c.corner().u);
    }
    lo
}

pub fn greatest<R: TableRow>(t: &[R]) -> f64
    ensures { result ≡ greatest_of (us (R.rows_of t.now)) }
{
    let mut hi = f64::NEG_INFINITY;
    for c in t {
        hi = max(hi, c.corner().u);
    }
    hi
}

pub fn least_u(first: &[Corner], later: &[Corner]) -> f64
    ensures { result ≡ least_u (us (rows first.now)) (us (rows later.now)) }
{
    min(least(first), least(later))
}

pub fn greatest_u(first: &[Corner], later: &[Corner]) -> f64
    ensures { result ≡ greatest_u (us (rows first.now)) (us (rows later.now)) }
{
    max(greatest(first), greatest(later))
}

// The whole periods by which a hole lies past the strip's begin.
pub fn strip_shift(t: &[Corner], lo: f64, period: f64) -> f64
    ensures value { result ≡ strip_shift period lo (us (rows t.now)) }
    ensures leaves_turn { LeavesTurn (least_of (us (rows t.now))) lo period result }
{
    ((least(t) - lo) / period).floor() * period
}

pub fn straddles(t: &[Corner], lo: f64, period: f64) -> bool
    ensures { result ≡ straddles period lo (us (rows t.now)) }
{
    if greatest(t) > lo + period + 1e-12 {
        return true;
    }
    least(t) < lo - 1e-12
}

// The first row at or past the cut, and 0 where there is none.
fn first_past(t: &[Corner], cut: f64) -> usize
    ensures { result ≡ first_past cut (us (rows t.now)) }
{
    t.iter().position(|c| c.u >= cut).unwrap_or(0)
}

// Of the open points: the last row, which repeats the first, is set aside.
pub fn first_open_past(t: &[Corner], cut: f64) -> usize
    ensures { result ≡ first_open_past cut (us (rows t.now)) }
{
    if t.len() == 0 {
        return 0;
    }
    first_past(&t[..t.len() - 1], cut)
}
