// What is demanded, as theorems: see specs/. Crate feeds_in_order ties them to the code.
#![tactic(auto)]
