// Exports for the comparison with the Rust alone: thin functions over the layers, each with the
// equation of what it calls. The product does not link them. No enum and no `Option` crosses to C: kinds
// and paths are numbers of 32 bits there, as a C enum is, a period is 0.0 for none, and what may be
// missing has a flag beside it. What turns such a number into a type of another crate is a function, as
// that type's `From` could stand in its own crate alone.
//
// A table is a slice of reals in C, five to a corner or four to a box; what stands behind its last whole
// row is no row, and stays. A table that is only read goes to the layer below as rows of five or four
// reals, which its functions read as they read corners and boxes; one that changes is lent by `views`.
#![tactic(auto)]

pub mod of_closed_region;
pub mod of_full_domain;
pub mod of_loops;
pub mod of_numbers;
pub mod of_records;
pub mod of_results;
pub mod of_surfaces;
