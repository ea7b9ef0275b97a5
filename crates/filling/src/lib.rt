// A face closed into lent arrays, by each of the three paths: filling is apart from writing, so that
// a result exists outside bytes. The steps here are those of `face`.
#![tactic(auto)]

ghost use Rattle.std.specs.Prelude.{◌≡◌, List, Float, map, ℕ, ◌<◌, ◌+◌, ◌-◌, ◌*◌, ◌≤◌, min, set, replicate, length};
ghost use Rattle.lists.specs.Pieces.{pieces};
ghost use Rattle.lists.specs.Placed.{placed};
ghost use Rattle.tables.specs.Rows.{rows};
ghost use Rattle.surfaces.specs.Domains.{u_period, period_length};
ghost use Rattle.loop_records.specs.Record.{no_loop};
ghost use Rattle.records.specs.Accepted.{Accepted};
ghost use Rattle.records.specs.Face.{loops as loops_of, counts as counts_of, corners_in};
ghost use Rattle.records.specs.Refusals.{passes, verdict};
ghost use Rattle.call.specs.Face.{surface_in, sense_in, wrapping, setting_in, given_in, wraps_in};
ghost use Rattle.loop_records.specs.Loops.{records_from};
ghost use Rattle.filling.specs.Filled.{FillsTo};
ghost use Rattle.call.specs.Later.{strip_conditions};
ghost use Rattle.bands.specs.Given.{falls};
ghost use Rattle.bands.specs.Columns.{setting_on};
ghost use Rattle.laying.specs.Held.{given_in as held_in};
ghost use Rattle.holes.specs.Others.{others};
ghost use Rattle.records.specs.Limits.{version1};
ghost use Rattle.call.specs.Paths.{signed_area};
ghost use Rattle.filling.specs.Band.{patch_in, BandIs, RingsOf};
ghost use Rattle.filling.specs.Stages.{IsRead};

use closed_face::face::closed_face;
use closed_region::outer::empty_box;
use face::FilledFace;
use full_domain::boundary::full_domain_count;
use full_domain::table::full_domain_loop;
use holes::picked::{count_holes, pick};
use holes::rows::pick_holes;
use laying::place::lay_rings;
use laying::reseam::reseam;
use laying::start::take_start;
use loop_records::ring::ring_of;
use measuring::refusals::{first_wrapping, last_wrapping};
use read_face::ReadFace;
use records::refusal::Refusal;
use result_loops::ResultLoops;
use results::Path;
use seam::gap::Span;
use strip::closing::{Closed, TooMany};
use surfaces::patch::Patch;
use tables::corners::{Corner, ORIGIN};
use tables::loops::Loops;
use tables::slices::copy_into;
use wrapped_region::order::goes_with;
use wrapped_region::ordered::close_ordered;

pub mod face;
mod read_face;
pub mod result_loops;
pub mod ring_refusals;

// The whole path: a sphere or a torus that no loop trims.
fn fill_whole(patch: Patch, out: &mut ResultLoops) -> FilledFace
    ensures { (s : List ℕ) → Accepted version1 s → loops_of s ≡ 0 → patch ≡ patch_in s
        → FillsTo passes s (Ok result) out.new }
{
    out.counts[0] = full_domain_count(patch.surface, patch.options);
    out.areas[0] = full_domain_loop(patch, &mut out.corners);
    FilledFace {
        path: Path::Whole,
        loops: 1,
    }
}

// The closed path: a face of which no loop wraps.
fn fill_closed(
    face: ReadFace,
    corners: &mut [Corner],
    areas: &mut [f64],
    out: &mut ResultLoops,
) -> FilledFace
    ensures { IsRead face.entry corners.old areas.old → 0 < loops_of face.entry.bytes.now → wrapping face.entry.bytes.now ≡ 0
        → FillsTo passes face.entry.bytes.now (Ok result) out.new }
{
    let mut boxes = [empty_box(); 16];
    closed_face(
        corners,
        face.counts,
        areas,
        &mut boxes,
        face.surface.u_period(),
        face.surface.v_period(),
        &mut out.corners,
        &mut out.counts,
        &mut out.areas,
    );
    FilledFace {
        path: Path::Closed,
        loops: face.counts.len(),
    }
}

// Whether u falls along a loop of this travel.
fn falls(travel: i32) -> bool
    ensures { result ≡ falls travel }
{
    travel < 0
}

// The band between two rings into the front of t, and the holes onto its strip where they stand. The
// arrays have places for what 16 holes cover, for the columns of both rings, and for a wall of 512
// points: a strip of more than 1,024 points is too long. The tables are lent beside the counts and in no
// struct, which would be no plainer: a function that takes a `&mut` inside a struct owes a clause on what
// it gives back, and the counts are not changed.
fn band_between(
    first: &mut [Corner],
    later: &mut [Corner],
    holes: &mut [Corner],
    counts: &[usize],
    first_falls: bool,
    later_falls: bool,
    patch: Patch,
    period: f64,
    sense: bool,
    t: &mut [Corner; 1536],
) -> Result<Closed, TooMany>
    ensures { length counts.now ≤ version1.loops → length (rows first.old) + length (rows later.old) ≤ version1.points
        → BandIs (setting_on patch period sense) (held_in first.old later.old first_falls later_falls (pieces counts.now (rows holes.old)))
        result t.new (pieces counts.now (rows holes.new)) }
{
    let mut spans = [Span {
        low: 0.0,
        high: 0.0,
    }; 16];
    // A trial is worked on copies of a ring's parameters and positions, in 512 places each: document 01
    // names these arrays. They are lent to `take_start` alone.
    let mut u = [0.0; 512];
    let mut v = [0.0; 512];
    let mut x = [0.0; 512];
    let mut y = [0.0; 512];
    let mut z = [0.0; 512];
    let mut wall = [ORIGIN; 512];
    lay_rings(first, later, first_falls, later_falls, period);
    reseam(first, later, holes, counts, &mut spans, period);
    take_start(first, later, &mut u, &mut v, &mut x, &mut y, &mut z, period);
    let with1 = goes_with(sense, first_falls);
    let with2 = goes_with(sense, later_falls);
    close_ordered(first, later, with1, with2, patch, period, &mut wall, t)
}

// The band of a face whose rings are its loops of number a and b, into the front of t; the holes as
// its strip takes them, one behind the other, into the front of `holes`.
fn band_of(
    face: ReadFace,
    corners: &[Corner],
    a: usize,
    b: usize,
    holes: &mut [Corner],
    t: &mut [Corner; 1536],
) -> Result<Closed, TooMany>
    ensures { (areas : List Float) → IsRead face.entry corners.now areas → RingsOf face.entry.bytes.now a b → version1.points ≤ length (rows holes.old)
        → BandIs (setting_in face.entry.bytes.now) (given_in face.entry.bytes.now) result t.new (pieces (others a b face.entry.counts.now) (rows holes.new)) }
{
    let mut first = [ORIGIN; 512];
    let mut later = [ORIGIN; 512];
    let mut counts = [0; 16];
    let one = ring_of(&mut first, corners, face.loops, a);
    let other = ring_of(&mut later, corners, face.loops, b);
    let m = one.count.min(512);
    let n = other.count.min(512);
    let all = Loops {
        corners,
        counts: face.counts,
    };
    pick_holes(holes, 0, all, a, b);
    pick(&mut counts, 0, face.counts, a, b);
    let k = count_holes(face.counts.len(), a, b).min(16);
    let period = face.surface.u_period().unwrap_or(0.0);
    band_between(
        &mut first[..m],
        &mut later[..n],
        holes,
        &counts[..k],
        falls(one.travel),
        falls(other.travel),
        face.patch(),
        period,
        face.has_sense(),
        t,
    )
}

// The wrapped path: a face of which two loops wrap. The result has one loop fewer, the two rings being
// one of its loops.
fn fill_band(
    face: ReadFace,
    corners: &[Corner],
    areas: &[f64],
    out: &mut ResultLoops,
) -> Result<FilledFace, Refusal>
    ensures { IsRead face.entry corners.now areas.now → wrapping face.entry.bytes.now ≡ 2
        → FillsTo (verdict (strip_conditions version1) face.entry.bytes.now) face.entry.bytes.now result out.new }
{
    let mut holes = [ORIGIN; 512];
    let a = last_wrapping(face.wraps).unwrap_or(0);
    let b = first_wrapping(face.wraps).unwrap_or(0);
    let closed = band_of(face, corners, a, b, &mut holes, &mut out.corners).map_err(
        |long| Refusal::LongStrip(long.corners),
    )?;
    copy_into(&mut out.corners, closed.count, &holes);
    out.counts[0] = closed.count;
    pick(&mut out.counts, 1, face.counts, a, b);
    out.areas[0] = closed.area;
    pick(&mut out.areas, 1, areas, a, b);
    Ok(FilledFace {
        path: Path::Wrapped,
        loops: face.counts.len().saturating_sub(1),
    })
}
