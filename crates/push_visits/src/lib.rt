// pushdown_sorts (sort_pushdown.rs), a node in the arena: what a visit of it decides, and the decision carried out over the walked children.
#![tactic(auto)]

pub mod carrying;
pub mod visiting;
