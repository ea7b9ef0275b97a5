// The refusals 8 to 11, in their order: what they ask is how many loops wrap, and whether those are
// closed. The kind is the record's byte, and the answer stands for every byte: an enum would ask more
// of callers.
ghost use Rattle.std.specs.Prelude.{◌≡◌};
ghost use Rattle.tables.specs.Loops.{loops_in};
ghost use Rattle.records.specs.Answers.{verdict_of};
ghost use Rattle.filling.specs.Stages.{rings_verdict};

use measuring::refusals::{many_rings, one_ring, open_ring, open_surface};
use records::refusal::Refusal;
use tables::loops::Loops;

#[tactic(auto, using(crate::proofs::Refused::as_many_pieces), unfolding(crate::specs::Stages::rings_verdict))]
pub fn check_rings(kind: u8, loops: Loops, wraps: &[i32]) -> Result<(), Refusal>
    ensures { verdict_of result ≡ rings_verdict kind (loops_in loops.entry) wraps.now }
{
    if let Some(k) = open_ring(loops, wraps) {
        return Err(Refusal::OpenRing(k));
    }
    if let Some(k) = one_ring(wraps) {
        return Err(Refusal::OneRing(k));
    }
    if let Some(n) = many_rings(wraps) {
        return Err(Refusal::ManyRings(n));
    }
    if let Some(p) = open_surface(kind, loops.counts.len()) {
        return Err(Refusal::OpenSurface(p));
    }
    Ok(())
}
