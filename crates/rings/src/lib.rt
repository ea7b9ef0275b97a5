// Rings of a band, begun elsewhere and put to a cut, on slices of any length. A ring is a table of
// corners, or a slice of their u alone.
#![tactic(auto)]

pub mod choices;
pub mod moves;
pub mod table_choices;
