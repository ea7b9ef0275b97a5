// The closed path, from the table of a face's loops to the table of its result.
#![tactic(auto)]

pub mod face;
pub mod first;
