// replace_with_order_preserving_variants.rs, plan_with_order_breaking_variants: a tree with nodes that keep their input's order replaced
// by ones that do not. No step asks for it (breaking.rt says why).
#![tactic(auto)]

pub mod breaking;
