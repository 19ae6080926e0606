// The facts of a node, the order check and runs, and their theorems: see specs/ and proofs/.
#![tactic(auto)]
