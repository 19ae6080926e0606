// sort_pushdown.rs, second part: what a visit of a node decides. pushdown_sorts carries it out.
#![tactic(auto)]

pub mod children;
pub mod deciding;
pub mod new_nodes;
pub mod sorts;

ghost use Rattle.std.specs.Prelude.{◌≡◌};
ghost use Rattle.key_lists.specs.Keys.{Real};
ghost use Rattle.walks.specs.PushdownSorts.{at_root};
ghost use Rattle.sort_pushdown.specs.Decisions.{visit_of};

use key_lists::Keys;
use push_requirements::ParentRequirements;

// What a node is visited with. touch: it is rebuilt before it is looked at. root: its children have the requirements of assign_initial_requirements.
#[derive(Clone, Copy)]
pub struct Visit {
    pub req: ParentRequirements,
    pub touch: bool,
    pub root: bool,
}

impl Visit {
    // The root: the default requirements.
    pub fn at_root() -> Self
        ensures { (visit_of result ≡ at_root) × Real result.req.order }
    {
        let req = ParentRequirements::default();
        Visit {
            req: req,
            touch: false,
            root: true,
        }
    }
}

// New nodes over a node: a merge over a sort; of no order, none.
#[derive(Clone, Copy)]
pub struct NewNodes {
    pub merge: Option<Keys>,
    pub mfetch: Option<u32>,
    pub sort: Option<Keys>,
    pub sfetch: Option<u32>,
    pub preserve: bool,
}

// What the children are visited with: the first, and the others alike. initial: each with its own fetch in that one's place.
#[derive(Clone, Copy)]
pub struct ChildRequirements {
    pub first: ParentRequirements,
    pub rest: ParentRequirements,
    pub initial: bool,
}

// tops: the new nodes. gone: the node, a sort, goes, and its child is rebuilt before it is looked at. rebuilt: the node, if it stays, is rebuilt over its
// children as
// they are. peak: the steps reach one node more on the way. quiet: no step ends here.
#[derive(Clone, Copy)]
pub struct Decision {
    pub tops: NewNodes,
    pub gone: bool,
    pub rebuilt: bool,
    pub reqs: ChildRequirements,
    pub peak: bool,
    pub quiet: bool,
}
