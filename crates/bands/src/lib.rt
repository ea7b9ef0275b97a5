// `wrapped_region` of face.rs for two rings: what its rings, seam and strip mean, and demand 3 of the
// band that they make. No function.
#![tactic(auto)]
