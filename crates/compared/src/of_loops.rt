// The leaf functions on one loop; `t` is its table, five reals a corner.
ghost use Rattle.std.specs.Prelude.{◌≡◌};
ghost use Rattle.loops.specs.Area.{area_of};
ghost use Rattle.loops.specs.Branch.{nearest_branch};
ghost use Rattle.loops.specs.Mean.{mean_of};
ghost use Rattle.loops.specs.Span.{least_of, greatest_of};
ghost use Rattle.loops.specs.Wrap.{net_wrap};
ghost use Rattle.tables.specs.Corners.{us, vs};
ghost use Rattle.tables.specs.Rows.{rows};
ghost use Rattle.views.specs.Tables.{corners_of};
ghost use Rattle.compared.specs.Surfaces.{period_of};

use super::of_surfaces::period_of;

#[unsafe(no_mangle)]
pub extern "C" fn compared_nearest_branch(value: f64, reference: f64, period: f64) -> f64
    ensures { result ≡ nearest_branch value reference period }
{
    loops::branch::nearest_branch(value, reference, period)
}

#[unsafe(no_mangle)]
#[tactic(auto, using(views::proofs::CornerRows::rows_read))]
pub extern "C" fn compared_net_wrap(t: &[f64], period: f64) -> i32
    ensures { result ≡ net_wrap (period_of period) (us (rows (corners_of t.now))) }
{
    let p = period_of(period);
    let (corners, _) = t.as_chunks::<5>();
    loops::rows::net_wrap(corners, p)
}

#[unsafe(no_mangle)]
#[tactic(auto, using(views::proofs::CornerRows::rows_read))]
pub extern "C" fn compared_signed_area(t: &[f64]) -> f64
    ensures { result ≡ area_of (us (rows (corners_of t.now))) (vs (rows (corners_of t.now))) }
{
    let (corners, _) = t.as_chunks::<5>();
    loops::rows::signed_area(corners)
}

#[unsafe(no_mangle)]
#[tactic(auto, using(views::proofs::CornerRows::rows_read))]
pub extern "C" fn compared_mean_v(t: &[f64]) -> f64
    ensures { result ≡ mean_of (vs (rows (corners_of t.now))) }
{
    let (corners, _) = t.as_chunks::<5>();
    wrapped_region::mean::mean_v(corners)
}

#[unsafe(no_mangle)]
#[tactic(auto, using(views::proofs::CornerRows::rows_read))]
pub extern "C" fn compared_least(t: &[f64]) -> f64
    ensures { result ≡ least_of (us (rows (corners_of t.now))) }
{
    let (corners, _) = t.as_chunks::<5>();
    rings::table_choices::least(corners)
}

#[unsafe(no_mangle)]
#[tactic(auto, using(views::proofs::CornerRows::rows_read))]
pub extern "C" fn compared_greatest(t: &[f64]) -> f64
    ensures { result ≡ greatest_of (us (rows (corners_of t.now))) }
{
    let (corners, _) = t.as_chunks::<5>();
    rings::table_choices::greatest(corners)
}
