// `wrapped_region` of face.rs: a face of which two loops wrap becomes a band. Rings are corner tables
// of any length.
#![tactic(auto)]

pub mod mean;
pub mod order;
pub mod ordered;
