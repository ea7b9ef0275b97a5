// The check of a face record: the refusals 2 to 7 of the table, in its order. It is lent no result
// bytes and writes nothing.
ghost use Rattle.std.specs.Prelude.{◌≡◌, ℕ, ◌+◌, ◌*◌, ◌≤◌, ◌<◌, length};
ghost use Rattle.records.specs.Face.{header_size, kind, loops, points, reals, needed};
ghost use Rattle.records.specs.Limits.{range};
ghost use Rattle.records.specs.Ranges.{range_of};
ghost use Rattle.records.specs.Refusals.{wrong_header, too_many_loops, ends_in_counts, too_few_points, too_many_points, wrong_length, bad_real, first_bad_real, first_from, record_conditions, verdict};
ghost use Rattle.records.specs.Answers.{place_of, verdict_of};
ghost use Rattle.records.specs.FirstLoop.{FirstLoop};

use super::limits::Limits;
use super::real_ranges::{Range, head_range, uv_range, xyz_range};
use super::refusal::Refusal;
use super::with_counts::WithCounts;
use super::{HEAD_REALS, HEADER_SIZE, MIN_POINTS, count_at, loops, points, real_at};

// 2, the same whatever the limits are: a step of its own
#[tactic(auto, unfolding(crate::specs::Refusals::wrong_header, crate::specs::Refusals::wrong_byte, crate::specs::Refusals::first_from))]
pub fn wrong_header(face: &[u8]) -> Option<usize>
    ensures { place_of result ≡ wrong_header face.now }
{
    if face.len() < HEADER_SIZE {
        return Some(face.len());
    }
    if face[0] != 1 {
        return Some(0);
    }
    if face[1] > 4 {
        return Some(1);
    }
    if face[3] > 1 {
        return Some(3);
    }
    if face[4] < 1 {
        return Some(4);
    }
    if face[4] > 64 {
        return Some(4);
    }
    None
}

// 3. That the header is there stands in two contracts of this file and in that of `loops`: they come before the
// counts were tested, and a struct of their own, beside `WithCounts`, would be no plainer.
#[tactic(auto, using(crate::proofs::Search::when_some), unfolding(crate::specs::Refusals::too_many_loops))]
fn too_many_loops(face: &[u8], limits: Limits) -> Option<usize>
    requires { header_size ≤ length face.now }
    ensures { place_of result ≡ too_many_loops limits face.now }
{
    let l = loops(face);
    (l > limits.loops).then_some(l)
}

// 6, the record ends inside its counts
#[tactic(auto, using(crate::proofs::Search::when_some), unfolding(crate::specs::Refusals::ends_in_counts))]
fn ends_in_counts(face: &[u8]) -> Option<usize>
    requires { header_size ≤ length face.now }
    ensures { place_of result ≡ ends_in_counts face.now }
{
    let end = HEADER_SIZE + 2 * loops(face);
    (face.len() < end).then_some(end)
}

// The first loop that `refuses` says is refused, asked with its points and with the total up to its end.
fn first_loop<F: Fn(usize, usize) -> bool>(face: WithCounts, refuses: F) -> Option<usize>
    requires { F.IsAlwaysCallable refuses }
    ensures { FirstLoop (F.post refuses) face.entry.bytes.now result }
{
    let mut total = 0;
    for k in 0..loops(face.bytes) {
        let n = count_at(face.bytes, k);
        total += n;
        if refuses(n, total) {
            return Some(k);
        }
    }
    None
}

// 4
fn too_few_points(face: WithCounts) -> Option<usize>
    ensures { place_of result ≡ too_few_points face.entry.bytes.now }
{
    first_loop(face, |n, _| n < MIN_POINTS)
}

// 5
fn too_many_points(face: WithCounts, limits: Limits) -> Option<usize>
    ensures { place_of result ≡ too_many_points limits face.entry.bytes.now }
{
    first_loop(face, |_, total| total > limits.points)
}

// 6, the record's length is not the one that its counts give
#[tactic(auto, using(crate::proofs::Search::when_some), unfolding(crate::specs::Refusals::wrong_length))]
fn wrong_length(face: WithCounts) -> Option<usize>
    ensures { place_of result ≡ wrong_length face.entry.bytes.now }
{
    let needed = HEADER_SIZE + 2 * loops(face.bytes) + 8 * (HEAD_REALS + 5 * points(face));
    (face.bytes.len() != needed).then_some(needed)
}

// Of `count` reals from real `first` on, the first that is not in its range.
fn first_outside<F: Fn(usize) -> Range>(
    face: &[u8],
    first: usize,
    count: usize,
    range_of_real: F,
) -> Option<usize>
    requires whole { length face.now ≡ needed face.now }
    requires inside { first + count ≤ reals face.now }
    requires callable { F.IsAlwaysCallable range_of_real }
    requires ranged { (j : ℕ) (r : _) → j < count → F.post range_of_real j r → range_of r ≡ range (kind face.now) (points face.now) (first + j) }
    ensures { place_of result ≡ first_from (bad_real face.now) first count }
{
    let at = HEADER_SIZE + 2 * loops(face) + 8 * first;
    for j in 0..count {
        if !range_of_real(j).contains(real_at(face, at + 8 * j)) {
            return Some(first + j);
        }
    }
    None
}

// 7, in three parts: head, parameters, positions. One search over all reals, which looks up each real's
// range, took 6.9 microseconds where this takes 3.5, and so missed the bar of being no slower than before
// (harness/bench).
#[tactic(auto, using(crate::proofs::Reals::of_parts))]
fn first_bad_real(counted: WithCounts) -> Option<usize>
    requires { length counted.bytes.now ≡ needed counted.bytes.now }
    ensures { place_of result ≡ first_bad_real counted.entry.bytes.now }
{
    let face = counted.bytes;
    let kind = face[1];
    if let Some(i) = first_outside(face, 0, HEAD_REALS, |i| head_range(kind, i)) {
        return Some(i);
    }
    let n = points(counted);
    if let Some(i) = first_outside(face, HEAD_REALS, 2 * n, |j| uv_range(kind, j)) {
        return Some(i);
    }
    first_outside(face, HEAD_REALS + 2 * n, 3 * n, |_| xyz_range())
}

// ---- the check

#[tactic(auto, using(crate::proofs::Counting::let_pass), unfolding(crate::specs::Refusals::verdict))]
pub fn check(face: &[u8], limits: Limits) -> Result<(), Refusal>
    ensures { verdict_of result ≡ verdict (record_conditions limits) face.now }
{
    if let Some(p) = wrong_header(face) {
        return Err(Refusal::WrongHeader(p));
    }
    if let Some(l) = too_many_loops(face, limits) {
        return Err(Refusal::TooManyLoops(l));
    }
    if let Some(n) = ends_in_counts(face) {
        return Err(Refusal::WrongLength(n));
    }
    let counted = WithCounts { bytes: face };
    if let Some(k) = too_few_points(counted) {
        return Err(Refusal::TooFewPoints(k));
    }
    if let Some(k) = too_many_points(counted, limits) {
        return Err(Refusal::TooManyPoints(k));
    }
    if let Some(n) = wrong_length(counted) {
        return Err(Refusal::WrongLength(n));
    }
    if let Some(i) = first_bad_real(counted) {
        return Err(Refusal::BadReal(i));
    }
    Ok(())
}
