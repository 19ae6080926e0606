// enforce_sorting/mod.rs, the ensuring walk: the sorts removed below a node that is connected to them.
#![tactic(auto)]

pub mod remove_corresponding_sort_from_sub_plan;
pub mod update_child_to_remove_unnecessary_sort;
