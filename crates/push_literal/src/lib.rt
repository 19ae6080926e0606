// Pushing in the Rust's own form, as a definition, and that it answers what the structural one does: see specs/.
#![tactic(auto)]
