// The mean v of a table's rows.
ghost use Rattle.std.specs.Prelude.{◌≡◌};
ghost use Rattle.loops.specs.Mean.{sum_of, mean_of};
ghost use Rattle.tables.specs.Corners.{vs};

use tables::table_row::TableRow;

// From -0.0 and in order, as the Rust sums.
fn sum_v<R: TableRow>(t: &[R]) -> f64
    ensures { result ≡ sum_of (vs (R.rows_of t.now)) }
{
    t.iter().fold(-0.0, |s, c| s + c.corner().v)
}

pub fn mean_v<R: TableRow>(t: &[R]) -> f64
    ensures { result ≡ mean_of (vs (R.rows_of t.now)) }
{
    if t.is_empty() {
        return 0.0;
    }
    sum_v(t) / std::num::nearest_u64_to_f64(t.len() as u64)
}
