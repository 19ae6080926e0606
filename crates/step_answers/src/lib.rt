// What a dry run of a plan file answers: see specs/.
#![tactic(auto)]
