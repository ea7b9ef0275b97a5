// The u of a table's rows, by themselves. What does not fit is not written.
ghost use Rattle.std.specs.Prelude.{◌≡◌};
ghost use Rattle.lists.specs.Placed.{placed};
ghost use Rattle.tables.specs.Corners.{us};
ghost use Rattle.tables.specs.Rows.{rows};

use super::columns::u_into;
use super::corners::Corner;

// The u of the rows into the front of dst, for what is decided by u alone.
pub fn us_into(dst: &mut [f64], t: &[Corner])
    ensures { dst.new ≡ placed 0 (us (rows t.now)) dst.old }
{
    u_into(dst, t);
}
