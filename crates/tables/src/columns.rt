// A table's columns in slices of their own, and a table put together from them. What does not fit is
// not written. Columns stand apart for a trial alone, whose arrays document 01 names.
ghost use Rattle.std.specs.Prelude.{◌≡◌, Float, map};
ghost use Rattle.numbers.specs.declared.math.Vec3.{Vec3};
ghost use Rattle.lists.specs.Placed.{placed};
ghost use Rattle.tables.specs.Columns.{Reads, corners_of};
ghost use Rattle.tables.specs.Corners.{Corner as CornerOf, us, vs, xs, ys, zs};
ghost use Rattle.tables.specs.Rows.{rows};

use super::corners::Corner;
use numbers::math::Vec3;

// What `read` gives of each corner into the front of dst.
fn column_into<F: Fn(Corner) -> f64>(dst: &mut [f64], t: &[Corner], read: F)
    requires { F.IsAlwaysCallable read }
    ensures { (of : CornerOf Vec3 → Float) → Reads (F.post read) of → dst.new ≡ placed 0 (map of (rows t.now)) dst.old }
{
    if dst.len() < t.len() {
        return;
    }
    // Not `dst.iter_mut().zip(t)`: after an adapter of `iter_mut` nothing is known of what was written.
    for (i, c) in t.iter().enumerate() {
        dst[i] = read(*c);
    }
}

// The u of each corner, for `copies`: `column_into` has a premise, that `read` can be called, and is
// private for it.
pub(crate) fn u_into(dst: &mut [f64], t: &[Corner])
    ensures { dst.new ≡ placed 0 (us (rows t.now)) dst.old }
{
    column_into(dst, t, |c| c.u);
}

// Each column into the front of its slice.
pub fn columns_into(
    t: &[Corner],
    u: &mut [f64],
    v: &mut [f64],
    x: &mut [f64],
    y: &mut [f64],
    z: &mut [f64],
)
    ensures u_after { u.new ≡ placed 0 (us (rows t.now)) u.old }
    ensures v_after { v.new ≡ placed 0 (vs (rows t.now)) v.old }
    ensures x_after { x.new ≡ placed 0 (xs (rows t.now)) x.old }
    ensures y_after { y.new ≡ placed 0 (ys (rows t.now)) y.old }
    ensures z_after { z.new ≡ placed 0 (zs (rows t.now)) z.old }
{
    column_into(u, t, |c| c.u);
    column_into(v, t, |c| c.v);
    column_into(x, t, |c| c.at.x);
    column_into(y, t, |c| c.at.y);
    column_into(z, t, |c| c.at.z);
}

// As many rows as the shortest slice has reals, into the front of the table.
pub fn rows_from(t: &mut [Corner], u: &[f64], v: &[f64], x: &[f64], y: &[f64], z: &[f64])
    ensures { rows t.new ≡ placed 0 (corners_of u.now v.now x.now y.now z.now) (rows t.old) }
{
    let n = u.len().min(v.len()).min(x.len().min(y.len().min(z.len())));
    if t.len() < n {
        return;
    }
    for (i, u) in u[..n].iter().enumerate() {
        let at = Vec3 {
            x: x[i],
            y: y[i],
            z: z[i],
        };
        t[i] = Corner { u: *u, v: v[i], at };
    }
}
