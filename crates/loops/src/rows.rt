// One loop that is a table: its area and its wrap.
ghost use Rattle.std.specs.Prelude.{◌≡◌, ◌+◌, ◌%◌, ◌<◌};
ghost use Rattle.tables.specs.Corners.{us, vs};
ghost use Rattle.loops.specs.Area.{area_of};
ghost use Rattle.loops.specs.Wrap.{net_wrap, wrap_every};

use super::wrap::turns_counted;
use tables::table_row::TableRow;

// The row after row i of n, round the loop. By index, since `windows(2)` leaves out the last step, back to
// the first row.
fn next(n: usize, i: usize) -> usize
    requires { i < n }
    ensures { result ≡ (i + 1) % n }
{
    if i + 1 < n { i + 1 } else { 0 }
}

pub fn signed_area<R: TableRow>(t: &[R]) -> f64
    ensures { result ≡ area_of (us (R.rows_of t.now)) (vs (R.rows_of t.now)) }
{
    let mut sum = 0.0;
    for (i, row) in t.iter().enumerate() {
        let c = row.corner();
        let d = t[next(t.len(), i)].corner();
        sum = sum + (c.u * d.v - d.u * c.v);
    }
    sum * 0.5
}

// Where u comes round every p. A loop carries its closing point, so its travel is from the first u to
// the last.
fn wrap_every<R: TableRow>(t: &[R], p: f64) -> i32
    ensures { result ≡ wrap_every p (us (R.rows_of t.now)) }
{
    match t {
        [first, .., last] => turns_counted((last.corner().u - first.corner().u) / p),
        _ => 0,
    }
}

pub fn net_wrap<R: TableRow>(t: &[R], period: Option<f64>) -> i32
    ensures { result ≡ net_wrap period (us (R.rows_of t.now)) }
{
    match period {
        Some(p) => wrap_every(t, p),
        None => 0,
    }
}
