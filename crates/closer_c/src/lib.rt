// The call for C, as a static library (include/closer.h): `closer_close_face` of the crate `closer`,
// under that name, with the same clauses.
#![tactic(auto)]

ghost use Rattle.std.specs.Prelude.{◌≡◌, length};
ghost use Rattle.records.specs.Call.{code, value as value_in, lent_after};
ghost use Rattle.call.specs.Demands.{Demand1, BandDemand, WholeDemand};
ghost use Rattle.call.specs.Judge.{judge};
ghost use Rattle.magnitudes.specs.Bounded.{ResultBounded};

use closer::entry;

#[unsafe(no_mangle)]
pub extern "C" fn closer_close_face(record: &[u8], res: &mut [u8], value: &mut usize) -> u32
    ensures value { result ≡ code (judge (length res.old) «record».now) }
    ensures value_after { value.new ≡ value_in (judge (length res.old) «record».now) }
    ensures res_after { res.new ≡ lent_after (judge (length res.old) «record».now) res.old }
    ensures demand1 { Demand1 «record».now res.old result value.new res.new }
    ensures band_demand { BandDemand «record».now result res.new }
    ensures whole_demand { WholeDemand «record».now result res.new }
    ensures result_bounded { ResultBounded «record».now result res.new }
{
    entry::closer_close_face(record, res, value)
}
