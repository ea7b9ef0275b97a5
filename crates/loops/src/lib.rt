// One loop: the leaf functions of face.rs on tables of any length, and the mathematics of its steps
// (specs/Steps, Repeats, Rings and their laws in proofs/).
#![tactic(auto)]

pub mod branch;
pub mod rows;
pub mod wrap;
