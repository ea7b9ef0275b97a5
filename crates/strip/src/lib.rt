// The strip between two rings of a band, in a corner table: 01, "Bands".
#![tactic(auto)]

pub mod closing;
pub mod corners;
pub mod count;
pub mod repeats;
pub mod walls;
