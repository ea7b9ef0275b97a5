// The refusals 8 to 11, from the wraps of the loops, for 8 with the loops themselves.
ghost use Rattle.std.specs.Prelude.{◌≡◌, length};
ghost use Rattle.numbers.specs.Position.{same};
ghost use Rattle.bands.specs.Given.{wraps};
ghost use Rattle.tables.specs.Corners.{positions};
ghost use Rattle.tables.specs.Loops.{loops_in};
ghost use Rattle.tables.specs.Rows.{rows};
ghost use Rattle.loops.specs.Rings.{ends_meet};
ghost use Rattle.records.specs.Answers.{place_of};
ghost use Rattle.records.specs.Refusals.{first_where};
ghost use Rattle.call.specs.Later.{wraps_at, open_at, open_among, wrapping_of, one_among, many_among, open_kind};
ghost use Rattle.measuring.specs.LastWhere.{last_where};

use tables::corners::Corner;
use tables::loops::{Loops, loop_of};

// Whether a loop of this wrap is a ring.
fn is_ring(wrap: i32) -> bool
    ensures { result ≡ wraps wrap }
{
    wrap != 0
}

// Whether loop k wraps; past the last one none does.
#[tactic(auto, unfolding(call::specs::Later::wraps_at))]
fn wraps_at(wraps: &[i32], k: usize) -> bool
    ensures { result ≡ wraps_at wraps.now k }
{
    match wraps.get(k) {
        Some(&wrap) => is_ring(wrap),
        None => false,
    }
}

// Whether a loop ends where it begins.
fn ends_meet(t: &[Corner]) -> bool
    ensures { result ≡ ends_meet same (positions (rows t.now)) }
{
    if t.len() == 0 {
        return true;
    }
    t[t.len() - 1].at.same(t[0].at)
}

// Whether loop k wraps and is open.
#[tactic(auto, unfolding(call::specs::Later::open_at))]
fn open_at(loops: Loops, wraps: &[i32], k: usize) -> bool
    ensures { result ≡ open_at (loops_in loops.entry) wraps.now k }
{
    wraps_at(wraps, k) && !ends_meet(loop_of(loops, k))
}

// 8
pub fn open_ring(loops: Loops, wraps: &[i32]) -> Option<usize>
    ensures { place_of result ≡ open_among (loops_in loops.entry) wraps.now }
{
    (0..loops.counts.len()).find(|&k| open_at(loops, wraps, k))
}

// How many loops wrap.
pub fn wrapping_count(wraps: &[i32]) -> usize
    ensures { result ≡ wrapping_of wraps.now }
{
    wraps.iter().filter(|&&w| is_ring(w)).count()
}

pub fn first_wrapping(wraps: &[i32]) -> Option<usize>
    ensures { place_of result ≡ first_where (length wraps.now) (wraps_at wraps.now) }
{
    wraps.iter().position(|&w| is_ring(w))
}

pub fn last_wrapping(wraps: &[i32]) -> Option<usize>
    ensures { place_of result ≡ last_where (length wraps.now) (wraps_at wraps.now) }
{
    wraps.iter().rposition(|&w| is_ring(w))
}

// 9
#[tactic(auto, unfolding(call::specs::Later::one_among))]
pub fn one_ring(wraps: &[i32]) -> Option<usize>
    ensures { place_of result ≡ one_among wraps.now }
{
    if wrapping_count(wraps) == 1 {
        return first_wrapping(wraps);
    }
    None
}

// 10
#[tactic(auto, using(records::proofs::Search::when_some), unfolding(call::specs::Later::many_among))]
pub fn many_rings(wraps: &[i32]) -> Option<usize>
    ensures { place_of result ≡ many_among wraps.now }
{
    let n = wrapping_count(wraps);
    (n > 2).then_some(n)
}

// 11. `kind` is the record's byte, and every byte is answered: an enum would ask more of callers.
#[tactic(auto, using(records::proofs::Search::when_some), unfolding(call::specs::Later::open_kind))]
pub fn open_surface(kind: u8, loops: usize) -> Option<usize>
    ensures { place_of result ≡ open_kind kind loops }
{
    (loops == 0 && kind <= 2).then_some(0)
}
