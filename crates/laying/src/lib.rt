// The two rings of a band and its holes, a table each, from the rings as given to the rings as the
// strip takes them. All holes stand one behind the other in one table, with a slice of their counts.
#![tactic(auto)]

pub mod holes;
pub mod place;
pub mod reseam;
pub mod start;
