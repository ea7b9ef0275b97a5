// A record of each loop of a face.
ghost use Rattle.std.specs.Prelude.{◌≡◌, replicate};
ghost use Rattle.lists.specs.Placed.{placed};
ghost use Rattle.tables.specs.Loops.{loops_in};
ghost use Rattle.tables.specs.Rows.{rows};
ghost use Rattle.loop_records.specs.Record.{no_loop};
ghost use Rattle.loop_records.specs.Loops.{record_of, records_from};

use super::{LoopRecord, no_loop};
use loops::rows::{net_wrap, signed_area};
use tables::corners::Corner;
use tables::loops::Loops;

// The record of a loop that begins at row `start` of the face's table.
fn measured(t: &[Corner], start: usize, period: Option<f64>) -> LoopRecord
    ensures { result ≡ record_of period start (rows t.now) }
{
    let wrap = net_wrap(t, period);
    LoopRecord {
        start,
        count: t.len(),
        wrap,
        travel: wrap.signum(),
        area: signed_area(t),
    }
}

// A record for each loop, and none where there are more loops than the list has records. Where a loop
// starts is the sum of the lengths before it, kept along the way: summed anew for each loop it would be
// no plainer, and the loops before would be passed again.
pub fn measure_loops(loops: Loops, period: Option<f64>) -> [LoopRecord; 16]
    ensures { result ≡ placed 0 (records_from period 0 (loops_in loops.entry)) (replicate 16 no_loop) }
{
    let mut records = [no_loop(); 16];
    if loops.counts.len() > 16 {
        return records;
    }
    let mut start = 0;
    for (i, one) in loops.enumerate() {
        records[i] = measured(one, start, period);
        start += one.len();
    }
    records
}
