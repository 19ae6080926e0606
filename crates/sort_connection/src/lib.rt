// enforce_sorting/mod.rs, the marks of the ensuring walk: which nodes are connected to a sort below them. What a node in a slot of the
// arena shows (specs/Standing.antt) is cited by the crates above too.
#![tactic(auto)]

pub mod update_sort_ctx_children_data;
