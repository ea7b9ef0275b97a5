// Both rings begun where the strip takes them. A trial is worked on copies of their columns, in the five
// arrays that document 01 names, and not on a table.
ghost use Rattle.std.specs.Prelude.{◌≡◌, ◌≤◌, List, length};
ghost use Rattle.numbers.specs.declared.math.Vec3.{Vec3};
ghost use Rattle.tables.specs.Corners.{Corners};
ghost use Rattle.tables.specs.Rows.{rows};
ghost use Rattle.rings.specs.Starts.{first_for, later_for};
ghost use Rattle.starts.specs.Search.{search_within};
ghost use Rattle.laying.specs.Held.{rings_in, room_in, started_within};

use rings::choices::{first_of, nearest};
use rings::moves::{align_at, begin_ring_at};
use starts::later_for;
use starts::trials::{Search, search_tables};
use tables::columns::{columns_into, rows_from};
use tables::corners::Corner;
use tables::moves::Move;

// The first ring, begun at its point k on a copy of its columns. What a corner carries besides its u is
// turned at the same point, and stays.
fn take_first(
    first: &mut [Corner],
    u: &mut [f64],
    v: &mut [f64],
    x: &mut [f64],
    y: &mut [f64],
    z: &mut [f64],
    k: usize,
    period: f64,
)
    requires { length first.old ≤ room_in u.old v.old x.old y.old z.old }
    ensures { rows first.new ≡ first_for period k (rows first.old) }
{
    let n = first.len();
    columns_into(first, u, v, x, y, z);
    begin_ring_at(&mut u[..n], k, Move::Up(period));
    begin_ring_at(&mut v[..n], k, Move::Stay);
    begin_ring_at(&mut x[..n], k, Move::Stay);
    begin_ring_at(&mut y[..n], k, Move::Stay);
    begin_ring_at(&mut z[..n], k, Move::Stay);
    rows_from(first, &u[..n], &v[..n], &x[..n], &y[..n], &z[..n]);
}

// The later ring, put to the cut on a copy of its columns.
fn take_later(
    later: &mut [Corner],
    u: &mut [f64],
    v: &mut [f64],
    x: &mut [f64],
    y: &mut [f64],
    z: &mut [f64],
    cut: f64,
    period: f64,
)
    requires { length later.old ≤ room_in u.old v.old x.old y.old z.old }
    ensures { rows later.new ≡ later_for period cut (rows later.old) }
{
    let n = later.len();
    columns_into(later, u, v, x, y, z);
    let near = nearest(&u[..n], cut, period);
    later_for(&mut u[..n], cut, period);
    align_at(&mut v[..n], near, Move::Stay, Move::Stay);
    align_at(&mut x[..n], near, Move::Stay, Move::Stay);
    align_at(&mut y[..n], near, Move::Stay, Move::Stay);
    align_at(&mut z[..n], near, Move::Stay, Move::Stay);
    rows_from(later, &u[..n], &v[..n], &x[..n], &y[..n], &z[..n]);
}

// Starts k of the first ring are tried from 0 on copies of both rings' u, and the rings begun at the
// one that is taken. u, v, x, y and z are scratch: where the shortest has no room for both rings, the
// rings stay and no start is tried.
pub fn take_start(
    first: &mut [Corner],
    later: &mut [Corner],
    u: &mut [f64],
    v: &mut [f64],
    x: &mut [f64],
    y: &mut [f64],
    z: &mut [f64],
    period: f64,
) -> Search
    ensures value { result ≡ search_within period (room_in u.old v.old x.old y.old z.old) (rows first.old) (rows later.old) }
    ensures first_after { (holes : List (Corners Vec3)) → rows first.new ≡ (started_within period (room_in u.old v.old x.old y.old z.old) (rings_in first.old later.old holes)).first }
    ensures later_after { (holes : List (Corners Vec3)) → rows later.new ≡ (started_within period (room_in u.old v.old x.old y.old z.old) (rings_in first.old later.old holes)).later }
{
    let room = u.len().min(v.len()).min(x.len().min(y.len().min(z.len())));
    let found = search_tables(&mut u[..room], first, later, period);
    if room < first.len() + later.len() {
        return found;
    }
    take_first(first, u, v, x, y, z, found.start, period);
    let cut = first_of(first);
    take_later(later, u, v, x, y, z, cut, period);
    found
}
