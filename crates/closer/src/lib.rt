// The call: a face record in, a result record or a refusal out.
#![tactic(auto)]

ghost use Rattle.std.specs.Prelude.{◌≡◌, length};
ghost use Rattle.records.specs.Call.{lent_after};
ghost use Rattle.call.specs.Demands.{Demand1, BandDemand, WholeDemand};
ghost use Rattle.call.specs.Judge.{judge};
ghost use Rattle.magnitudes.specs.Bounded.{ResultBounded};
ghost use Rattle.closer.specs.Returned.{Tells, code_of, value_of, WrittenBytes};

use filling::face::{FilledFace, fill_face};
use filling::result_loops::ResultLoops;
use records::check::wrong_header;
use records::limits::version1;
use records::refusal::Refusal;
use results::write_result;
use tables::loops::Loops;

pub mod entry;

// What filling leaves, written into the front of the lent bytes. Answers how many it takes, and 0 where
// something is too short: that it never is, is proved of the call, which would only take an `Option`
// apart to the same 0.
fn write_filled(face: FilledFace, out: &ResultLoops, res: &mut [u8]) -> usize
    ensures { WrittenBytes face.path face.loops out.now.counts out.now.areas out.now.corners res.old res.new result }
{
    let l = face.loops.min(out.counts.len());
    let loops = Loops {
        corners: &out.corners,
        counts: &out.counts[..l],
    };
    write_result(face.path, loops, &out.areas, res).unwrap_or(0)
}

// The face record is closed into the front of the lent bytes, and the length of the result record is
// answered; or it is refused, and the lent bytes keep their values. The first two clauses say what is
// returned and what the lent bytes are then, by the definition of the whole call: demand 2, where that
// definition is what the Rust computes. The next two are the demands 1 and 3 of the pair and the bytes,
// 3 wherever the holes lie (02, N4), then what 02, N2 adds of whole surfaces. The last goes beyond 01:
// every real of a result is finite and at most 10^24 in size, as 02, N9 asks of results. The tables are
// those of version 1: a strip of 1,024 corners and 512 points of holes, and 16 loops.
pub fn close_face(record: &[u8], res: &mut [u8]) -> Result<usize, Refusal>
    ensures value { Tells result (judge (length res.old) «record».now) }
    ensures res_after { res.new ≡ lent_after (judge (length res.old) «record».now) res.old }
    ensures demand1 { Demand1 «record».now res.old (code_of result) (value_of result) res.new }
    ensures band_demand { BandDemand «record».now (code_of result) res.new }
    ensures whole_demand { WholeDemand «record».now (code_of result) res.new }
    ensures result_bounded { ResultBounded «record».now (code_of result) res.new }
{
    let limits = version1();
    if res.len() < limits.result {
        return Err(Refusal::TooFewLent(limits.result));
    }
    if let Some(place) = wrong_header(record) {
        return Err(Refusal::WrongHeader(place));
    }
    let mut out = ResultLoops::empty();
    let filled = fill_face(record, &mut out)?;
    Ok(write_filled(filled, &out, res))
}
