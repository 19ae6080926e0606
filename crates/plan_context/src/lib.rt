// The marked trees of the walks (the Rust's PlanContext<bool>) in an arena. A slot holds a node's record, its children's handles, and what is kept of the
// node: its facts and a summary of its tree (crate tree_summary). A handle is the number of a slot, doubled, plus one where the node is marked.
#![tactic(auto)]

pub mod handles;
pub mod kept;
