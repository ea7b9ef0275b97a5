// Where the seam of a band lies: the widest gap that its holes leave.
#![tactic(auto)]

pub mod gap;
