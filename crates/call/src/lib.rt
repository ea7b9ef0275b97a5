// The whole call as definitions over bytes: a face record in, a refusal or the bytes of a result
// record out. specs/Judge.antt is the top; specs/Demands.antt has the demands, which the contract of
// the call carries. No function.
#![tactic(auto)]
