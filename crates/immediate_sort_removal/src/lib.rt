// enforce_sorting/mod.rs, the ensuring walk: what comes in the place of a sort whose child meets its order.
#![tactic(auto)]

pub mod analyze_immediate_sort_removal;
