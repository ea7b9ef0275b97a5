// Laws of lists that the proofs of other crates cite. They stand in proofs/; there are no functions.
#![tactic(auto)]
