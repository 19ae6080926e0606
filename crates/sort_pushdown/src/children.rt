// What the children of a node are visited with.
ghost use Rattle.std.specs.Prelude.{◌≡◌, true, cond, List, ℕ, get_or, Option, None};
ghost use Rattle.row_order.specs.Iso.{Key};
ghost use Rattle.plan.specs.Op.{Plan};
ghost use Rattle.plan.specs.WellFormed.{children_ok};
ghost use Rattle.plan_codec.specs.Decode.{decode};
ghost use Rattle.record_fields.specs.Proper.{Proper};
ghost use Rattle.semantics.specs.Properties.{fetches};
ghost use Rattle.walks.specs.SortPushdown.{child_count};
ghost use Rattle.walks.specs.PushdownSorts as walk;
ghost use Rattle.push_requirements.specs.Pushing.{Handed};
ghost use Rattle.sort_pushdown.specs.Decisions.{Asks, of_child, visit_of, visit_for};

use crate::{ChildRequirements, Decision, Visit};
use key_lists::Keys;
use plan::Distribution;
use push_requirements::ParentRequirements;
use push_requirements::requirements::stronger_distribution;
use wanted_inputs::{wanted_distribution, wanted_order};

// An order for the first child and one for the others, with each child's own distribution if it is stronger.
pub fn hand_down(
    r: &[u8],
    first: Option<Keys>,
    rest: Option<Keys>,
    fetch: Option<u32>,
    d: Distribution,
) -> ChildRequirements
    requires { Proper r.now }
    ensures { (m : ℕ) (ts : List (Option ℕ)) (ks : ℕ → List Key) → Handed m ks first rest
        → Asks m ts (λ i. (walk.hand_down ks fetch d (decode r.now) i).req) result }
{
    let d0 = stronger_distribution(d, wanted_distribution(r, 0));
    let d1 = stronger_distribution(d, wanted_distribution(r, 1));
    let a = ParentRequirements {
        order: first,
        fetch: fetch,
        distribution: d0,
    };
    let b = ParentRequirements {
        order: rest,
        fetch: fetch,
        distribution: d1,
    };
    ChildRequirements {
        first: a,
        rest: b,
        initial: false,
    }
}

// The default, with each child's own distribution.
pub fn with_own_distribution(r: &[u8]) -> ChildRequirements
    requires { Proper r.now }
    ensures { (m : ℕ) (ts : List (Option ℕ)) → Asks m ts (λ i. (walk.with_own_distribution (decode r.now) i).req) result }
{
    let req = ParentRequirements::default();
    let order = req.order;
    let fetch = req.fetch;
    let a = ParentRequirements {
        order: order,
        fetch: fetch,
        distribution: wanted_distribution(r, 0),
    };
    let b = ParentRequirements {
        order: order,
        fetch: fetch,
        distribution: wanted_distribution(r, 1),
    };
    ChildRequirements {
        first: a,
        rest: b,
        initial: false,
    }
}

// Each child's own order, fetch and distribution.
pub fn assign_initial_requirements(r: &[u8]) -> ChildRequirements
    requires { Proper r.now }
    ensures { (c : Plan) → children_ok (decode r.now) (child_count c) ≡ true → Asks (child_count c) (fetches c)
        (λ i. (walk.assign_initial_requirements (decode r.now) c i).req) result }
{
    let fetch = None;
    let a = ParentRequirements {
        order: wanted_order(r, 0),
        fetch: fetch,
        distribution: wanted_distribution(r, 0),
    };
    let b = ParentRequirements {
        order: wanted_order(r, 1),
        fetch: fetch,
        distribution: wanted_distribution(r, 1),
    };
    ChildRequirements {
        first: a,
        rest: b,
        initial: true,
    }
}

// ---- child number j

fn of_child(reqs: ChildRequirements, j: usize) -> ParentRequirements
    ensures { result ≡ of_child reqs j }
{
    let a = reqs.first;
    let b = reqs.rest;
    if j == 0 {
        return a;
    }
    b
}

fn fetch_for(initial: bool, own: Option<u32>, f: Option<u32>) -> Option<u32>
    ensures { result ≡ cond initial own f }
{
    if initial { own } else { f }
}

// own: that child's fetch.
pub fn child_visit(d: Decision, j: usize, own: Option<u32>) -> Visit
    ensures { ((ts : List (Option ℕ)) → own ≡ get_or ts j None → visit_of result ≡ visit_for d ts j) × (result.req.order ≡ (of_child d.reqs j).order) }
{
    let reqs = d.reqs;
    let req = of_child(reqs, j);
    let order = req.order;
    let f = req.fetch;
    let distribution = req.distribution;
    let below = ParentRequirements {
        order: order,
        fetch: fetch_for(reqs.initial, own, f),
        distribution: distribution,
    };
    Visit {
        req: below,
        touch: d.gone,
        root: false,
    }
}
