// sort_pushdown.rs, first part: what is required of a node, and how a requirement goes past it to the node's children. A node is its record and the rows of
// its facts.
#![tactic(auto)]

pub mod joins;
pub mod requirements;

ghost use Rattle.walks.specs.SortPushdown.{default_requirements};
ghost use Rattle.push_requirements.specs.Pushing.{Requires};

use key_lists::Keys;
use plan::Distribution;

// What is required of a node by its parent.
#[derive(Clone, Copy)]
pub struct ParentRequirements {
    pub order: Option<Keys>,
    pub fetch: Option<u32>,
    pub distribution: Distribution,
}

impl ParentRequirements {
    // No order, no fetch, no distribution: at the root and under new sorts.
    pub fn default() -> Self
        ensures { Requires default_requirements result }
    {
        let order = None;
        let fetch = None;
        let distribution = Distribution::Unspecified;
        ParentRequirements {
            order: order,
            fetch: fetch,
            distribution: distribution,
        }
    }
}

// What goes to the children where a requirement can be pushed down: an order for the first child and one for the others.
#[derive(Clone, Copy)]
pub struct ChildOrders {
    pub first: Option<Keys>,
    pub rest: Option<Keys>,
}
