// From a face record that the check lets pass to what it says: its surface, its tolerances, and the
// refusals 8 to 11.
#![tactic(auto)]

pub mod head;
pub mod refusals;
