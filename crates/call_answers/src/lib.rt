// What an export answers, as definitions: see specs/. The contracts of the exports and the third demand cite the same.
#![tactic(auto)]
