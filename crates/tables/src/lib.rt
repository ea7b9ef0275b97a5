// Corner tables: a loop of corners is a slice of them, and what is done to one, a part of one, and the
// loops of a face, which stand one behind the other. Slices of any length.
#![tactic(auto)]

pub mod columns;
pub mod copies;
pub mod corners;
pub mod loops;
pub mod moves;
pub mod ring_point;
pub mod slices;
pub mod table_row;
