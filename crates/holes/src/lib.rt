// The holes of a face, all its loops but the two rings, picked out of what holds all loops: `rows`
// out of a corner table, `picked` out of the counts and the areas.
#![tactic(auto)]

pub mod picked;
pub mod rows;
