// All holes of a band, one behind the other in one table, and how many points each has. Where the counts
// run past the end, a hole is what is left. A table that is changed is lent beside its counts and in no
// struct, which would be no plainer: a function that takes a `&mut` inside a struct owes a clause on
// what it gives back, and the counts are not changed.
ghost use Rattle.std.specs.Prelude.{◌≡◌, map};
ghost use Rattle.lists.specs.Pieces.{pieces, map_pieces};
ghost use Rattle.lists.specs.Placed.{placed};
ghost use Rattle.tables.specs.Corners.{us};
ghost use Rattle.tables.specs.Loops.{loops_in};
ghost use Rattle.tables.specs.Rows.{rows};
ghost use Rattle.seam.specs.Gap.{span_of};
ghost use Rattle.bands.specs.Rings.{onto, any_straddles};

use rings::table_choices::{greatest, least, straddles, strip_shift};
use seam::gap::Span;
use tables::corners::Corner;
use tables::loops::Loops;
use tables::moves::{Move, slide_unless_zero};
use tables::slices::piece_end;

// One hole, by whole periods.
fn onto(t: &mut [Corner], lo: f64, period: f64)
    ensures { rows t.new ≡ onto period lo (rows t.old) }
{
    let step = strip_shift(t, lo, period);
    slide_unless_zero(t, step, Move::Down(step));
}

// Every hole onto the strip that begins at lo. The place is kept by hand: with what is left of the table
// in a variable (`split_at_mut`) the proof did not close, as a loop keeps nothing of what a borrow that
// is handed on gives back.
pub fn onto_all(t: &mut [Corner], counts: &[usize], lo: f64, period: f64)
    ensures { rows t.new ≡ map_pieces (onto period lo) counts.now (rows t.old) }
{
    let mut from = 0;
    for points in counts {
        let to = piece_end(t.len(), from, *points);
        onto(&mut t[from..to], lo, period);
        from = to;
    }
}

// Whether a hole reaches past an end of the strip that begins at lo.
pub fn any_straddles(holes: Loops, lo: f64, period: f64) -> bool
    ensures { result ≡ any_straddles period lo (loops_in holes.entry) }
{
    let mut left = holes;
    left.any(|hole| straddles(hole, lo, period))
}

// What one hole covers, by its u.
fn span_of(t: &[Corner]) -> Span
    ensures { result ≡ span_of (us (rows t.now)) }
{
    Span {
        low: least(t),
        high: greatest(t),
    }
}

// What each hole covers into the front of `out`, and nothing where they do not fit.
pub fn spans_into(out: &mut [Span], holes: Loops)
    ensures { out.new ≡ placed 0 (map span_of (pieces holes.entry.counts.now (us (rows holes.entry.corners.now)))) out.old }
{
    if out.len() < holes.counts.len() {
        return;
    }
    for (i, hole) in holes.enumerate() {
        out[i] = span_of(hole);
    }
}
