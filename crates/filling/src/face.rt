// A face record filled into lent arrays.
ghost use Rattle.std.specs.Prelude.{◌≡◌, ◌++◌};
ghost use Rattle.records.specs.Accepted.{Accepted};
ghost use Rattle.records.specs.Refusals.{passes, verdict, record_conditions};
ghost use Rattle.records.specs.Limits.{version1};
ghost use Rattle.call.specs.Later.{ring_conditions, strip_conditions, later_conditions};
ghost use Rattle.filling.specs.Filled.{FillsTo};
ghost use Rattle.filling.specs.Stages.{IsRead};

use super::read_face::ReadFace;
use super::result_loops::ResultLoops;
use super::ring_refusals::check_rings;
use super::{fill_band, fill_closed, fill_whole};
use loop_records::measure::measure_loops;
use loop_records::{areas_of, wraps_of};
use measuring::head::surface_of;
use measuring::refusals::wrapping_count;
use records::check::check;
use records::limits::version1;
use records::read::{kind, read_corners, read_counts, read_head};
use records::refusal::Refusal;
use results::Path;
use tables::corners::{Corner, ORIGIN};
use tables::loops::Loops;
use tables::slices::at;

// What a face was filled as. It is no part of `ResultLoops`, which would be no plainer: it is what an `Ok`
// carries, and a face that is refused has no path.
#[derive(Clone, Copy)]
pub struct FilledFace {
    pub path: Path,
    // How many loops the result has.
    pub loops: usize,
}

// The path: whole where there are no loops, closed where none wraps, else wrapped. The closed one does
// not need the frame, which takes roots.
fn fill_path(
    face: ReadFace,
    corners: &mut [Corner],
    areas: &mut [f64],
    out: &mut ResultLoops,
) -> Result<FilledFace, Refusal>
    ensures { IsRead face.entry corners.old areas.old → verdict ring_conditions face.entry.bytes.now ≡ passes
        → FillsTo (verdict (strip_conditions version1) face.entry.bytes.now) face.entry.bytes.now result out.new }
{
    if face.counts.len() == 0 {
        return Ok(fill_whole(face.patch(), out));
    }
    if wrapping_count(face.wraps) == 0 {
        return Ok(fill_closed(face, corners, areas, out));
    }
    fill_band(face, corners, areas, out)
}

// A record that the refusals 2 to 7 let pass: it is read, its loops are measured, the refusals 8 to 11
// tested, and its path taken, which may refuse by 12.
fn fill_record(face: &[u8], out: &mut ResultLoops) -> Result<FilledFace, Refusal>
    ensures { Accepted version1 face.now → FillsTo (verdict (later_conditions version1) face.now) face.now result out.new }
{
    let mut head = [0.0; 13];
    let mut counts = [0; 16];
    let mut corners = [ORIGIN; 512];
    read_head(face, &mut head);
    let l = read_counts(face, &mut counts).unwrap_or(0);
    let e = read_corners(face, &mut corners).unwrap_or(0);
    let counts = &counts[..l];
    let corners = &mut corners[..e];
    let surface = surface_of(kind(face), at(&head, 9), at(&head, 10));
    let given = Loops { corners, counts };
    let loops = measure_loops(given, surface.u_period());
    // The refusals are defined over a list of wraps, and the closed path changes a list of areas where
    // it is: both stand beside the records.
    let mut wraps = [0; 16];
    wraps_of(loops, l, &mut wraps);
    let wraps = &wraps[..l];
    let mut areas = [0.0; 16];
    areas_of(loops, l, &mut areas);
    check_rings(kind(face), given, wraps)?;
    let read = ReadFace {
        bytes: face,
        head: &head,
        counts,
        loops: &loops,
        wraps,
        surface,
    };
    fill_path(read, corners, &mut areas[..l], out)
}

// The face of a record closed into what is lent, or refused.
pub fn fill_face(face: &[u8], out: &mut ResultLoops) -> Result<FilledFace, Refusal>
    ensures { FillsTo (verdict (record_conditions version1 ++ later_conditions version1) face.now) face.now result out.new }
{
    check(face, version1())?;
    fill_record(face, out)
}
