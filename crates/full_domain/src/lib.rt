// The boundary of a whole surface: a sphere or a torus that no loop trims.
#![tactic(auto)]

pub mod boundary;
pub mod table;
