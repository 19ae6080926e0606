// The calls on a plan file, in an arena that the caller lends: read, check or rewrite, write.
#![tactic(auto)]

use transform_up::Walk;

pub mod calls;

// What is asked of a plan in one arena; pushing takes a second one.
#[derive(Clone, Copy)]
pub enum Call {
    CheckOrder,
    CopyPlan,
    TransformUp(Walk),
    PartialSort(u32),
}
