// pushdown_sorts_helper: what a visit decides at a node with the record r and the facts own, over children of which the first two have the facts a and b;
// limit: its
// own fetch.
ghost use Rattle.std.specs.Prelude.{◌≡◌, cond, List, ℕ, ◌≤◌};
ghost use Rattle.row_order.specs.Iso.{Key};
ghost use Rattle.plan.specs.Op.{Op, Plan};
ghost use Rattle.plan_codec.specs.Decode.{decode};
ghost use Rattle.record_fields.specs.Proper.{Proper};
ghost use Rattle.semantics.specs.Facts as sem;
ghost use Rattle.semantics.specs.Properties.{fetches, fetch_op};
ghost use Rattle.key_lists.specs.Keys.{keys_of};
ghost use Rattle.asked_facts.specs.Asked.{told, FactRow};
ghost use Rattle.walks.specs.Utils.{sort_above_with_distribution};
ghost use Rattle.walks.specs.SortPushdown.{child_count, effective_dist};
ghost use Rattle.walks.specs.PushdownSorts as walk;
ghost use Rattle.push_requirements.specs.Pushing.{Asked, Handed, SeenNode};
ghost use Rattle.sort_pushdown.specs.Decisions.{Decides, Visited, stays_by, rebuilt_by, visit_of};

use crate::children::{assign_initial_requirements, hand_down, with_own_distribution};
use crate::new_nodes::{merge_and_sort, merge_only, no_nodes, sort_above_with_distribution};
use crate::sorts::decide_sort;
use crate::{ChildRequirements, Decision, NewNodes, Visit};
use child_requirements::pushdown_requirement_to_children;
use key_lists::Keys;
use met_orders::{fresh_keys, meets, normal_form};
use node_properties::is_sort;
use plan::Distribution;
use push_requirements::requirements::{effective_distribution, min_fetch, needs_merge};
use wanted_inputs::wanted_order;

// The node stays, below the new nodes.
fn stays(rebuilt: bool, tops: NewNodes, reqs: ChildRequirements, peak: bool) -> Decision
    ensures { result ≡ stays_by rebuilt tops reqs peak }
{
    Decision {
        tops: tops,
        gone: false,
        rebuilt: rebuilt,
        reqs: reqs,
        peak: peak,
        quiet: false,
    }
}

// No order is required: each child is handed its own distribution; the root's children their initial requirements.
fn unasked(root: bool, r: &[u8]) -> Decision
    requires { Proper r.now }
    ensures { (c : Plan) (o : Op) (F L R : sem.Facts) → SeenNode (decode r.now) o (sem.facts c) (child_count c) F L R
        → Decides o c (walk.stays o (cond root (walk.assign_initial_requirements o c) (walk.with_own_distribution o))) result }
{
    if root {
        return stays(false, no_nodes(), assign_initial_requirements(r), false);
    }
    stays(false, no_nodes(), with_own_distribution(r), false)
}

// The node stays as it is, and its children are required these orders.
fn handed_on(
    r: &[u8],
    own: &[u8],
    first: Option<Keys>,
    rest: Option<Keys>,
    fetch: Option<u32>,
    d: Distribution,
) -> Decision
    requires { Proper r.now × FactRow own.now }
    ensures { (c : Plan) (o : Op) (L R : sem.Facts) (ks : ℕ → List Key) → SeenNode (decode r.now) o (sem.facts c) (child_count c)
        (told own.now) L R → Handed (child_count c) ks first rest
        → Decides o c (walk.stays o (walk.hand_down ks fetch (effective_dist (sem.facts_op o (sem.facts c)) d) o)) result }
{
    let e = effective_distribution(own, d);
    let reqs = hand_down(r, first, rest, fetch, e);
    stays(false, no_nodes(), reqs, false)
}

// The order cannot be pushed down: a new sort.
fn sort_added(r: &[u8], own: &[u8], order: Keys, fetch: Option<u32>, d: Distribution) -> Decision
    requires { Proper r.now × FactRow own.now × (order.len ≤ 8) }
    ensures { (c : Plan) (o : Op) (L R : sem.Facts) → SeenNode (decode r.now) o (sem.facts c) (child_count c)
        (told own.now) L R → Decides o c (walk.covered (sort_above_with_distribution (sem.facts_op o (sem.facts c)) (keys_of order) fetch d) 0 o
        (walk.with_own_distribution o)) result }
{
    let tops = sort_above_with_distribution(own, order, fetch, d);
    stays(false, tops, with_own_distribution(r), false)
}

// Where a merge comes too, the new sort is visited, removed, and the node tried once more.
fn merge_added(
    r: &[u8],
    own: &[u8],
    a: &[u8],
    b: &[u8],
    limit: Option<u32>,
    order: Keys,
    fetch: Option<u32>,
) -> Decision
    requires { Asked r.now own.now a.now b.now order }
    ensures { (c : Plan) (o : Op) (q : walk.Visit) → SeenNode (decode r.now) o (sem.facts c) (child_count c) (told own.now)
        (told a.now) (told b.now) → limit ≡ fetch_op o (fetches c) → keys_of order ≡ q.req.order → fetch ≡ q.req.fetch
        → Decides o c (walk.merge_added q o c) result }
{
    let new = fresh_keys(own, order);
    let again = normal_form(own, new);
    let p = pushdown_requirement_to_children(r, own, a, b, limit, again, fetch);
    if let Some(orders) = p {
        let reqs = hand_down(
            r,
            orders.first,
            orders.rest,
            min_fetch(limit, fetch),
            Distribution::Unspecified,
        );
        return stays(true, merge_only(new, fetch), reqs, true);
    }
    let tops = merge_and_sort(own, new, fetch, again, fetch);
    stays(true, tops, with_own_distribution(r), false)
}

fn decide_node(v: Visit, r: &[u8], own: &[u8], a: &[u8], b: &[u8], limit: Option<u32>) -> Decision
    requires { Visited r.now own.now a.now b.now v.req.order }
    ensures { (c : Plan) (o : Op) → SeenNode (decode r.now) o (sem.facts c) (child_count c) (told own.now)
        (told a.now) (told b.now) → limit ≡ fetch_op o (fetches c) → Decides o c (walk.decide_node (visit_of v) o c) result }
{
    let req = v.req;
    let requirement = req.order;
    let fetch = req.fetch;
    let d = req.distribution;
    let Some(order) = requirement else {
        return unasked(v.root, r);
    };
    if meets(own, order) {
        return handed_on(r, own, wanted_order(r, 0), wanted_order(r, 1), fetch, d);
    }
    let p = pushdown_requirement_to_children(r, own, a, b, limit, order, fetch);
    if let Some(orders) = p {
        return handed_on(
            r,
            own,
            orders.first,
            orders.rest,
            min_fetch(limit, fetch),
            d,
        );
    }
    if needs_merge(own, d) {
        return merge_added(r, own, a, b, limit, order, fetch);
    }
    sort_added(r, own, order, fetch, d)
}

// The same decision at a node that is rebuilt before it is looked at.
fn touched(d: Decision) -> Decision
    ensures { result ≡ rebuilt_by d }
{
    let tops = d.tops;
    let reqs = d.reqs;
    Decision {
        tops: tops,
        gone: d.gone,
        rebuilt: true,
        reqs: reqs,
        peak: d.peak,
        quiet: d.quiet,
    }
}

pub fn pushdown_sorts_helper(
    v: Visit,
    r: &[u8],
    own: &[u8],
    a: &[u8],
    b: &[u8],
    limit: Option<u32>,
) -> Decision
    requires { Visited r.now own.now a.now b.now v.req.order }
    ensures { (c : Plan) → SeenNode (decode r.now) (decode r.now) (sem.facts c) (child_count c) (told own.now)
        (told a.now) (told b.now) → limit ≡ fetch_op (decode r.now) (fetches c) → Decides (decode r.now) c
        (walk.pushdown_sorts_helper (visit_of v) (decode r.now) c) result }
{
    if is_sort(r) {
        return decide_sort(v, r, own, a);
    }
    let d = decide_node(v, r, own, a, b, limit);
    if v.touch {
        return touched(d);
    }
    d
}
