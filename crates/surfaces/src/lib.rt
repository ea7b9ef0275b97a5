// Surfaces: the five kinds with their points and domains, the tolerances, and the step counts and
// rungs that walls and whole surfaces are made of. Total on every `f64`.
#![tactic(auto)]

pub mod knots;
pub mod options;
pub mod patch;
pub mod steps;
pub mod surface;
