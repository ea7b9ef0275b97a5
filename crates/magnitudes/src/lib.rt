// How large the reals of a result can be: no area, parameter or position is a NaN, an infinity or
// over 10^24 in size. specs/Bounded.antt has the statement. No function.
#![tactic(auto)]
