// The strip cut anew where a hole lies across its seam. The rings and the holes, which are changed, are
// lent beside the counts and in no struct, which would be no plainer: a function that takes a `&mut`
// inside a struct owes a clause on what it gives back, and the counts are not changed.
ghost use Rattle.std.specs.Prelude.{◌≡◌, ◌&&◌, map, ◌≤◌, length};
ghost use Rattle.std.specs.Float.Ieee.{lt};
ghost use Rattle.std.specs.Float.Ieee.Scale.{finite};
ghost use Rattle.lists.specs.Pieces.{pieces, map_pieces};
ghost use Rattle.tables.specs.Corners.{us};
ghost use Rattle.tables.specs.Rows.{rows};
ghost use Rattle.rings.specs.Choices.{greatest_u};
ghost use Rattle.seam.specs.Gap.{span_of, widest_gap};
ghost use Rattle.bands.specs.Rings.{recut, onto, reseam};
ghost use Rattle.laying.specs.Held.{face_in, reseam_within};

use super::holes::{any_straddles, onto_all, spans_into};
use rings::moves::recut_at;
use rings::table_choices::{first_open_past, greatest_u, least_u};
use seam::gap::{Gap, Span, sort_spans, usable, widest_gap};
use tables::corners::Corner;
use tables::loops::Loops;
use tables::moves::Move;

// Whether the rings make a strip at all, from lo, their least u, on.
#[tactic(auto, using(numbers::proofs::order::Laws::finite_is))]
fn has_strip(lo: f64, first: &[Corner], later: &[Corner]) -> bool
    ensures { result ≡ (finite lo && lt lo (greatest_u (us (rows first.now)) (us (rows later.now)))) }
{
    if lo.is_finite() {
        return lo < greatest_u(first, later);
    }
    false
}

// The widest gap between the holes. What they cover stands in the front of `spans`.
fn gap_of(spans: &mut [Span], holes: Loops, lo: f64, hi: f64) -> Gap
    requires { length holes.counts.now ≤ length spans.old }
    ensures { result ≡ widest_gap lo hi (map span_of (pieces holes.entry.counts.now (us (rows holes.entry.corners.now)))) }
{
    let n = holes.counts.len();
    let covered = &mut spans[..n];
    spans_into(covered, holes);
    sort_spans(covered);
    widest_gap(covered, lo, hi)
}

// A ring cut anew at its first open point at or past the cut.
fn recut(t: &mut [Corner], cut: f64, period: f64)
    ensures { rows t.new ≡ recut period cut (rows t.old) }
{
    let k = first_open_past(t, cut);
    recut_at(t, k, Move::Up(period));
}

// The rings begun anew at the cut, and the holes brought onto the strip that begins there.
fn cut_anew(
    first: &mut [Corner],
    later: &mut [Corner],
    holes: &mut [Corner],
    counts: &[usize],
    cut: f64,
    period: f64,
)
    ensures first_after { rows first.new ≡ recut period cut (rows first.old) }
    ensures later_after { rows later.new ≡ recut period cut (rows later.old) }
    ensures holes_after { rows holes.new ≡ map_pieces (onto period cut) counts.now (rows holes.old) }
{
    recut(first, cut, period);
    recut(later, cut, period);
    onto_all(holes, counts, cut, period);
}

// With a place for what each hole covers.
fn reseam_with_room(
    first: &mut [Corner],
    later: &mut [Corner],
    holes: &mut [Corner],
    counts: &[usize],
    spans: &mut [Span],
    period: f64,
)
    requires { length counts.now ≤ length spans.old }
    ensures { face_in counts.now first.new later.new holes.new ≡ reseam period (face_in counts.now first.old later.old holes.old) }
{
    let lo = least_u(first, later);
    if !has_strip(lo, first, later) {
        return;
    }
    onto_all(holes, counts, lo, period);
    let onto = Loops {
        corners: holes,
        counts,
    };
    if !any_straddles(onto, lo, period) {
        return;
    }
    let hi = lo + period;
    let gap = gap_of(spans, onto, lo, hi);
    if usable(gap, lo, hi) {
        cut_anew(first, later, holes, counts, gap.cut, period);
    }
}

// Where the rings make a strip, every hole brought onto it, and the rings cut anew where a hole lies
// across the seam and leaves a gap. spans is scratch for what the holes cover: where it is shorter than
// the counts nothing is done.
pub fn reseam(
    first: &mut [Corner],
    later: &mut [Corner],
    holes: &mut [Corner],
    counts: &[usize],
    spans: &mut [Span],
    period: f64,
)
    ensures { face_in counts.now first.new later.new holes.new ≡ reseam_within period counts.now (length spans.old) (face_in counts.now first.old later.old holes.old) }
{
    if spans.len() < counts.len() {
        return;
    }
    reseam_with_room(first, later, holes, counts, spans, period);
}
