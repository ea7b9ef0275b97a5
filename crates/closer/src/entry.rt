// The call for C: the refusal, or 0, is the result; its place, or the result record's length, is stored.
// The crate `closer_c` exports it.
ghost use Rattle.std.specs.Prelude.{◌≡◌, length};
ghost use Rattle.records.specs.Call.{code, value as value_in, lent_after};
ghost use Rattle.call.specs.Demands.{Demand1, BandDemand, WholeDemand};
ghost use Rattle.call.specs.Judge.{judge};
ghost use Rattle.magnitudes.specs.Bounded.{ResultBounded};
ghost use Rattle.closer.specs.Returned.{code_of, value_of};

use super::close_face;
use records::refusal::Refusal;

fn code_of(answer: Result<usize, Refusal>) -> u32
    ensures { result ≡ code_of answer }
{
    match answer {
        Ok(_) => 0,
        Err(refusal) => u32::from(refusal.number()),
    }
}

fn value_of(answer: Result<usize, Refusal>) -> usize
    ensures { result ≡ value_of answer }
{
    match answer {
        Ok(length) => length,
        Err(refusal) => refusal.place(),
    }
}

// What `close_face` says of its answer is said here of the pair. A caller in C lends three pieces of
// memory that do not overlap, of the lengths given (include/closer.h).
pub fn closer_close_face(record: &[u8], res: &mut [u8], value: &mut usize) -> u32
    ensures value { result ≡ code (judge (length res.old) «record».now) }
    ensures value_after { value.new ≡ value_in (judge (length res.old) «record».now) }
    ensures res_after { res.new ≡ lent_after (judge (length res.old) «record».now) res.old }
    ensures demand1 { Demand1 «record».now res.old result value.new res.new }
    ensures band_demand { BandDemand «record».now result res.new }
    ensures whole_demand { WholeDemand «record».now result res.new }
    ensures result_bounded { ResultBounded «record».now result res.new }
{
    let answer = close_face(record, res);
    *value = value_of(answer);
    code_of(answer)
}
