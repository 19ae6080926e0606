// pushdown_sorts_helper at a sort with the record r and the facts own, over a child with the facts a.
ghost use Rattle.std.specs.Prelude.{◌≡◌, Bool, cond, ◌||◌, List, ◌≤◌, Option, ℕ};
ghost use Rattle.row_order.specs.Iso.{Key};
ghost use Rattle.plan.specs.Op.{sort_op, Plan};
ghost use Rattle.plan.specs.declared.Distribution.TheVariants as distribution;
ghost use Rattle.plan_codec.specs.Decode.{decode};
ghost use Rattle.record_fields.specs.Proper.{Proper};
ghost use Rattle.semantics.specs.Facts as sem;
ghost use Rattle.semantics.specs.Properties.{dist_of};
ghost use Rattle.key_lists.specs.Keys.{keys_of, order_of, Ordered, Real};
ghost use Rattle.asked_facts.specs.Asked.{told, FactRow};
ghost use Rattle.sort_pushdown.specs.Decisions.{Decides, removed_by, visit_of, sort_on, unasked_on, unnecessary_on, replaced_on, twice_on};

use crate::new_nodes::{merge_and_sort, no_nodes, sort_above_with_distribution};
use crate::{ChildRequirements, Decision, NewNodes, Visit};
use asked_facts::known_order;
use key_lists::{Keys, order_of};
use met_orders::{compatible, fresh_keys, meets, normal_form};
use plan::Distribution;
use push_requirements::ParentRequirements;
use push_requirements::requirements::{keys_in, min_fetch, needs_merge};
use wanted_inputs::wanted_distribution;

// The sort goes; its child is visited with req.
fn removed(tops: NewNodes, req: ParentRequirements, quiet: bool) -> Decision
    ensures { result ≡ removed_by tops req quiet }
{
    let reqs = ChildRequirements {
        first: req,
        rest: req,
        initial: false,
    };
    Decision {
        tops: tops,
        gone: true,
        rebuilt: false,
        reqs: reqs,
        peak: false,
        quiet: quiet,
    }
}

// The distribution of a root sort's child is what the sort itself requires, of another's none.
fn root_distribution(root: bool, r: &[u8]) -> Distribution
    requires { Proper r.now }
    ensures { result ≡ cond root (dist_of (decode r.now) 0) distribution.Unspecified }
{
    if root {
        return wanted_distribution(r, 0);
    }
    Distribution::Unspecified
}

// No order is required: the sort goes, and its order and the stricter fetch go on.
fn sort_unasked(v: Visit, r: &[u8], own: &[u8]) -> Decision
    requires { Proper r.now × FactRow own.now }
    ensures { (p : Bool) (ks : List Key) (f : Option ℕ) (c : Plan) → decode r.now ≡ sort_op p ks f → Decides (sort_op p ks f) c
        (unasked_on p ks f (visit_of v) (told own.now)) result }
{
    let req = v.req;
    let f = node_fetches::fetch(r);
    let g = req.fetch;
    let below = ParentRequirements {
        order: known_order(own),
        fetch: min_fetch(f, g),
        distribution: root_distribution(v.root, r),
    };
    removed(no_nodes(), below, true)
}

// The sort's own order if it is compatible with the required one, else that.
fn stricter(a: &[u8], own: Option<Keys>, parent: Keys) -> Option<Keys>
    requires { FactRow a.now × Real own × (parent.len ≤ 8) }
    ensures { Ordered (cond (sem.compatible (told a.now) (order_of own) (keys_of parent)) (order_of own) (keys_of parent)) result }
{
    if compatible(a, keys_in(own), parent) {
        return own;
    }
    order_of(parent)
}

// The sort was unnecessary: the stricter order and fetch go on.
fn sort_unnecessary(v: Visit, r: &[u8], own: &[u8], a: &[u8], parent: Keys) -> Decision
    requires { Proper r.now × FactRow own.now × FactRow a.now × (parent.len ≤ 8) × (keys_of parent ≡ order_of v.req.order) }
    ensures { (p : Bool) (ks : List Key) (f : Option ℕ) (c : Plan) → decode r.now ≡ sort_op p ks f → Decides (sort_op p ks f) c
        (unnecessary_on p ks f (visit_of v) (told own.now) (told a.now)) result }
{
    let req = v.req;
    let f = node_fetches::fetch(r);
    let g = req.fetch;
    let below = ParentRequirements {
        order: stricter(a, known_order(own), parent),
        fetch: min_fetch(f, g),
        distribution: Distribution::Unspecified,
    };
    removed(no_nodes(), below, true)
}

// The sort was imposing a different order: a sort of the required one in its place, and the old order goes on.
fn sort_replaced(v: Visit, r: &[u8], own: &[u8], a: &[u8], parent: Keys) -> Decision
    requires { Proper r.now × FactRow own.now × FactRow a.now × (parent.len ≤ 8) × (keys_of parent ≡ order_of v.req.order) }
    ensures { (p : Bool) (ks : List Key) (f : Option ℕ) (c : Plan) → decode r.now ≡ sort_op p ks f → Decides (sort_op p ks f) c
        (replaced_on p ks f (visit_of v) (told own.now) (told a.now)) result }
{
    let req = v.req;
    let below = ParentRequirements {
        order: known_order(own),
        fetch: node_fetches::fetch(r),
        distribution: Distribution::Unspecified,
    };
    let g = req.fetch;
    let d = req.distribution;
    let tops = sort_above_with_distribution(a, parent, g, d);
    removed(tops, below, false)
}

// The same where a merge comes too: the new sort is replaced in its turn.
fn sort_replaced_twice(v: Visit, r: &[u8], own: &[u8], a: &[u8], parent: Keys) -> Decision
    requires { Proper r.now × FactRow own.now × FactRow a.now × (parent.len ≤ 8) × (keys_of parent ≡ order_of v.req.order) }
    ensures { (p : Bool) (ks : List Key) (f : Option ℕ) (c : Plan) → decode r.now ≡ sort_op p ks f → Decides (sort_op p ks f) c
        (twice_on p ks f (visit_of v) (told own.now) (told a.now)) result }
{
    let req = v.req;
    let g = req.fetch;
    let new = fresh_keys(a, parent);
    let below = ParentRequirements {
        order: order_of(normal_form(a, new)),
        fetch: g,
        distribution: Distribution::Unspecified,
    };
    let order = keys_in(known_order(own));
    let tops = merge_and_sort(a, new, g, order, node_fetches::fetch(r));
    removed(tops, below, false)
}

// Whether the parent's order is satisfied, or the parent is stricter.
fn unnecessary(own: &[u8], parent: Keys) -> bool
    requires { FactRow own.now × (parent.len ≤ 8) }
    ensures { result ≡ (sem.met (told own.now) (keys_of parent) || sem.compatible (told own.now) (keys_of parent)
        (sem.known_order (told own.now))) }
{
    meets(own, parent) | compatible(own, parent, keys_in(known_order(own)))
}

pub fn decide_sort(v: Visit, r: &[u8], own: &[u8], a: &[u8]) -> Decision
    requires { Proper r.now × FactRow own.now × FactRow a.now × Real v.req.order }
    ensures { (p : Bool) (ks : List Key) (f : Option ℕ) (c : Plan) → decode r.now ≡ sort_op p ks f → Decides (sort_op p ks f) c
        (sort_on p ks f (visit_of v) (told own.now) (told a.now)) result }
{
    let req = v.req;
    let requirement = req.order;
    let d = req.distribution;
    let Some(parent) = requirement else {
        return sort_unasked(v, r, own);
    };
    if unnecessary(own, parent) {
        return sort_unnecessary(v, r, own, a, parent);
    }
    if needs_merge(a, d) {
        return sort_replaced_twice(v, r, own, a, parent);
    }
    sort_replaced(v, r, own, a, parent)
}
