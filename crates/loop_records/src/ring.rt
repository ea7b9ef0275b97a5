// One loop taken out of a face's table by its record.
ghost use Rattle.std.specs.Prelude.{◌≡◌, get_or};
ghost use Rattle.tables.specs.Rows.{rows};
ghost use Rattle.loop_records.specs.Record.{no_loop};
ghost use Rattle.loop_records.specs.Ring.{taken};

use super::{LoopRecord, no_loop};
use tables::corners::Corner;
use tables::slices::{copy_into, part};

// The rows from `start` on, `count` of them, into the front of dst.
#[tactic(auto, using(tables::proofs::Steps::row_steps))]
fn copy_ring(dst: &mut [Corner], t: &[Corner], start: usize, count: usize)
    ensures { rows dst.new ≡ taken start count (rows t.now) (rows dst.old) }
{
    copy_into(dst, 0, part(t, start, count));
}

// Loop i into the front of dst, and its record. Past the end there is no loop, and its record is that
// of no corners.
pub fn ring_of(dst: &mut [Corner], t: &[Corner], loops: &[LoopRecord], i: usize) -> LoopRecord
    ensures { (result ≡ get_or loops.now i no_loop)
        × (rows dst.new ≡ taken result.start result.count (rows t.now) (rows dst.old)) }
{
    let one = loops.get(i).copied().unwrap_or(no_loop());
    copy_ring(dst, t, one.start, one.count);
    one
}
