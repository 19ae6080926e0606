// The walks as definitions, and their theorems: see specs/ and proofs/.
#![tactic(auto)]
