// No code: what the library promises as a whole, said over the crates below (see specs/ and proofs/).
#![tactic(auto)]
