// replace_with_order_preserving_variants.rs, the marks: from which nodes a path leads down to one that loses its input's order. Laws
// that the order-preserving and the order-breaking plans share (kinds, a node in another's place, a recursion into a tree) stand in
// specs/.
#![tactic(auto)]

pub mod marking;
