// The region of a face whose loops all close: which loop is the outer one, and the holes moved onto
// its branch. Slices of any length.
#![tactic(auto)]

pub mod box_row;
pub mod box_table;
pub mod boxes;
pub mod enclosing;
pub mod holes;
pub mod outer;
pub mod region;
pub mod rephase;
