// The whole path: how many corners the boundary of a whole surface has, and the boundary.
ghost use Rattle.std.specs.Prelude.{◌≡◌, length};
ghost use Rattle.lists.specs.Placed.{placed};
ghost use Rattle.tables.specs.Rows.{rows};
ghost use Rattle.full_domain.specs.Boundary.{CountEnds, whole_corners, area_within};
ghost use Rattle.full_domain.specs.Table.{whole_rows, RowsReach};
ghost use Rattle.views.specs.Tables.{corners_of, rest_of};
ghost use Rattle.compared.specs.Surfaces.{surface_of, resolved_of};

use super::of_surfaces::surface_of;
use numbers::math::Frame;
use surfaces::options::Resolved;
use surfaces::patch::Patch;
use views::corners::split_corners_mut;

#[unsafe(no_mangle)]
pub extern "C" fn compared_full_domain_count(
    kind: u32,
    a: f64,
    b: f64,
    sag: f64,
    angle: f64,
    segments: usize,
) -> usize
    ensures value { result ≡ length (whole_corners (surface_of kind a b) (resolved_of sag angle segments)) }
    ensures count_ends { CountEnds (surface_of kind a b) (resolved_of sag angle segments) result }
{
    let options = Resolved {
        sag,
        angle,
        min_edge_segments: segments,
    };
    full_domain::boundary::full_domain_count(surface_of(kind, a, b), options)
}

#[unsafe(no_mangle)]
#[tactic(auto, using(views::proofs::CornerRows::items_after, views::proofs::CornerRows::rest_after))]
pub extern "C" fn compared_full_domain_loop(
    kind: u32,
    a: f64,
    b: f64,
    frame: Frame,
    sag: f64,
    angle: f64,
    segments: usize,
    t: &mut [f64],
) -> f64
    ensures value { result ≡ area_within (length (rows (corners_of t.old))) (surface_of kind a b) (resolved_of sag angle segments) }
    ensures t_after { rows (corners_of t.new) ≡ placed 0 (whole_rows (surface_of kind a b) frame (resolved_of sag angle segments)) (rows (corners_of t.old)) }
    ensures behind { rest_of t.new ≡ rest_of t.old }
    ensures rows_reach { RowsReach (surface_of kind a b) (resolved_of sag angle segments) (length (rows (corners_of t.old))) (rows (corners_of t.new)) }
{
    let patch = Patch {
        surface: surface_of(kind, a, b),
        frame,
        options: Resolved {
            sag,
            angle,
            min_edge_segments: segments,
        },
    };
    let (corners, _) = split_corners_mut(t);
    full_domain::table::full_domain_loop(patch, corners)
}
