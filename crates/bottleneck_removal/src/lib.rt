// enforce_sorting/mod.rs, parallelizing: which nodes are connected with a coalesce that can be taken out, and the tree without it.
#![tactic(auto)]

pub mod bottlenecks;
pub mod marks;
