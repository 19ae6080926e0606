// Dry runs: see specs/.
#![tactic(auto)]
