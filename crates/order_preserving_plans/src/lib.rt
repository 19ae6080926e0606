// replace_with_order_preserving_variants.rs, plan_with_order_preserving_variants: a tree with the nodes on its marked paths replaced by
// ones that keep their input's order.
#![tactic(auto)]

pub mod preserving;
