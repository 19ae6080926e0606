// pushdown_requirement_to_children: how a required order goes past a node.
#![tactic(auto)]

ghost use Rattle.std.specs.Prelude.{◌≡◌, cond, not, ◌&&◌, ◌||◌, List, ℕ, ◌≤◌, get_or, Option};
ghost use Rattle.plan.specs.Op.{Op, projection};
ghost use Rattle.plan.specs.Numbers.{kind_of};
ghost use Rattle.plan.specs.declared.Kind.TheVariants as kinds;
ghost use Rattle.plan_codec.specs.Decode.{decode, from_bytes};
ghost use Rattle.record_fields.specs.Proper.{Proper};
ghost use Rattle.semantics.specs.Facts as sem;
ghost use Rattle.semantics.specs.Properties.{fetch_op};
ghost use Rattle.key_lists.specs.Keys.{keys_of};
ghost use Rattle.asked_facts.specs.Asked.{told, FactRow};
ghost use Rattle.walks.specs.SortPushdown as walk;
ghost use Rattle.push_requirements.specs.Pushing.{HandsOn, Asked, SeenNode};

use asked_facts::{known_order, width};
use byte_rows::wide;
use key_lists::{Keys, order_of};
use maintained_orders::maintains;
use met_orders::{compatible, meets};
use moved_requirements::{all_below, none_equal, remap_requirement_through_projection};
use node_fetches::{cardinality_equal, supports_limit_pushdown};
use node_properties::{is_projection, join_type, keys};
use plan::Kind;
use push_requirements::ChildOrders;
use push_requirements::joins::{handle_hash_join, try_pushdown_requirements_to_join};
use record_fields::{KEY_COUNT, KIND, WIDTH, kind_of, tail_columns};
use record_keys::key_columns;
use wanted_inputs::wanted_order;

// Of a node with one child: whether it wants an order of which no key equals its counterpart.
fn pushdown_would_violate_requirements(r: &[u8], parent: Keys) -> bool
    requires { Proper r.now }
    ensures { result ≡ walk.pushdown_would_violate_requirements (decode r.now) 1 (keys_of parent) }
{
    let Some(k) = wanted_order(r, 0) else {
        return false;
    };
    none_equal(k, parent)
}

// ---- the branches by kind

// The order to all children.
fn handle_custom_pushdown(parent: Keys) -> Option<ChildOrders>
    requires { parent.len ≤ 8 }
    ensures { (m : ℕ) → HandsOn m (walk.handle_custom_pushdown (keys_of parent)) result }
{
    let order = order_of(parent);
    Some(ChildOrders {
        first: order,
        rest: order,
    })
}

fn handle_projection_pushdown(r: &[u8], parent: Keys) -> Option<ChildOrders>
    requires { Proper r.now × (kind_of (get_or r.now 0 0) ≡ kinds.Projection) × (parent.len ≤ 8) }
    ensures { (cols : List ℕ) (m : ℕ) → decode r.now ≡ projection cols → HandsOn m (walk.handle_projection_pushdown cols (keys_of parent)) result }
{
    let cols = tail_columns(r);
    let n = wide(r[WIDTH]);
    let order = order_of(remap_requirement_through_projection(&cols[..n], parent));
    Some(ChildOrders {
        first: order,
        rest: order,
    })
}

// To the child, if the aggregate maintains it, all columns are group columns, and the child meets the requirement in its columns already.
fn handle_aggregate_pushdown(r: &[u8], own: &[u8], a: &[u8], parent: Keys) -> Option<ChildOrders>
    requires { Proper r.now × (kind_of (get_or r.now 0 0) ≡ kinds.Aggregate) × FactRow own.now × FactRow a.now × (parent.len ≤ 8) }
    ensures { (o : Op) (fs : List sem.Facts) (m : ℕ) (R : sem.Facts) → SeenNode (decode r.now) o fs m (told own.now)
        (told a.now) R → HandsOn m (walk.push_by_kind (decode r.now) fs (keys_of parent)) result }
{
    let cols = key_columns(r);
    let n = wide(r[KEY_COUNT]);
    let mapped = remap_requirement_through_projection(&cols[..n], parent);
    if maintains(r, own, a, 0) & (all_below(n, parent) & meets(a, mapped)) {
        return handle_custom_pushdown(mapped);
    }
    None
}

fn handle_sort(r: &[u8], a: &[u8], parent: Keys) -> Option<ChildOrders>
    requires { Proper r.now × FactRow a.now × (parent.len ≤ 8) }
    ensures { (m : ℕ) → HandsOn m (walk.go_if (sem.compatible (told a.now) (keys_of parent) (from_bytes r.now).keys)
        (λ i. keys_of parent)) result }
{
    if compatible(a, parent, keys(r)) {
        return handle_custom_pushdown(parent);
    }
    None
}

// A merge that knows no order, for its keys are all constant, lets none be pushed past it.
fn handle_merge(own: &[u8], parent: Keys) -> Option<ChildOrders>
    requires { FactRow own.now × (parent.len ≤ 8) }
    ensures { (m : ℕ) → HandsOn m (walk.handle_merge (told own.now) (keys_of parent)) result }
{
    let Some(order) = known_order(own) else {
        return None; // the Rust panics here
    };
    if compatible(own, parent, order) {
        return handle_custom_pushdown(parent);
    }
    None
}

fn push_past_merge(r: &[u8], own: &[u8], parent: Keys) -> Option<ChildOrders>
    requires { Proper r.now × FactRow own.now × (parent.len ≤ 8) }
    ensures { (m : ℕ) → HandsOn m (cond (walk.pushdown_would_violate_requirements (decode r.now) 1 (keys_of parent)) walk.stop
        (walk.handle_merge (told own.now) (keys_of parent))) result }
{
    if pushdown_would_violate_requirements(r, parent) {
        return None;
    }
    handle_merge(own, parent)
}

fn push_past_output_requirement(r: &[u8], parent: Keys) -> Option<ChildOrders>
    requires { Proper r.now × (parent.len ≤ 8) }
    ensures { (m : ℕ) → HandsOn m (cond (walk.pushdown_would_violate_requirements (decode r.now) 1 (keys_of parent)) walk.stop
        (walk.handle_custom_pushdown (keys_of parent))) result }
{
    if pushdown_would_violate_requirements(r, parent) {
        return None;
    }
    handle_custom_pushdown(parent)
}

fn push_by_kind(r: &[u8], own: &[u8], a: &[u8], b: &[u8], parent: Keys) -> Option<ChildOrders>
    requires { Asked r.now own.now a.now b.now parent }
    ensures { (o : Op) (fs : List sem.Facts) (m : ℕ) → SeenNode (decode r.now) o fs m (told own.now) (told a.now)
        (told b.now) → HandsOn m (walk.push_by_kind (decode r.now) fs (keys_of parent)) result }
{
    let kind = kind_of(r[KIND]);
    match kind {
        Kind::Source => None,
        Kind::Filter => None,
        Kind::Projection => handle_projection_pushdown(r, parent),
        Kind::Union => handle_custom_pushdown(parent),
        Kind::Repartition => None,
        Kind::Coalesce => None,
        Kind::Sort => handle_sort(r, a, parent),
        Kind::Merge => push_past_merge(r, own, parent),
        Kind::GlobalLimit => handle_custom_pushdown(parent),
        Kind::LocalLimit => handle_custom_pushdown(parent),
        Kind::SortMergeJoin => try_pushdown_requirements_to_join(
            r,
            own,
            a,
            b,
            join_type(r),
            parent,
        ),
        Kind::HashJoin => handle_hash_join(join_type(r), width(own), width(b), parent),
        Kind::OutputRequirement => push_past_output_requirement(r, parent),
        Kind::PartialSort => None,
        Kind::Aggregate => handle_aggregate_pushdown(r, own, a, parent),
    }
}

// ---- fetches

// A limit on the parent does not go through operators that change the cardinality.
fn fetch_blocks(r: &[u8], f: Option<u32>) -> bool
    requires { Proper r.now }
    ensures { result ≡ walk.fetch_blocks (decode r.now) f }
{
    f.is_some() & !(supports_limit_pushdown(r) & cardinality_equal(r))
}

// An operator with a fetch that supports the pushdown of limits and maintains the order of its child; none with several children has a fetch.
fn through_fetch(r: &[u8], own: &[u8], a: &[u8], limit: Option<u32>) -> bool
    requires { Proper r.now × FactRow own.now × FactRow a.now }
    ensures { (o : Op) (fs : List sem.Facts) (ts : List (Option ℕ)) (m : ℕ) (R : sem.Facts) → SeenNode (decode r.now) o fs m
        (told own.now) (told a.now) R → limit ≡ fetch_op (decode r.now) ts
        → result ≡ walk.through_fetch (decode r.now) limit m fs }
{
    limit.is_some() & (supports_limit_pushdown(r) & maintains(r, own, a, 0))
}

fn order_allows(own: &[u8], parent: Keys) -> bool
    requires { FactRow own.now × (parent.len ≤ 8) }
    ensures { result ≡ (sem.is_nil (sem.known_order (told own.now)) || sem.compatible (told own.now) (keys_of parent)
        (sem.known_order (told own.now))) }
{
    let Some(order) = known_order(own) else {
        return true;
    };
    compatible(own, parent, order)
}

// Past an operator with a fetch, the requirement in the child's columns.
fn handle_fetch(r: &[u8], own: &[u8], parent: Keys) -> Option<ChildOrders>
    requires { Proper r.now × FactRow own.now × (parent.len ≤ 8) }
    ensures { (fs : List sem.Facts) (m : ℕ) → HandsOn m (walk.handle_fetch (decode r.now) (told own.now) fs (keys_of parent)) result }
{
    if !order_allows(own, parent) {
        return None;
    }
    if is_projection(r) {
        return handle_projection_pushdown(r, parent);
    }
    handle_custom_pushdown(parent)
}

// The node has the record r and the facts own, its first two children have the facts a and b; limit: its own fetch. parent, fetch: what is required of it.
pub fn pushdown_requirement_to_children(
    r: &[u8],
    own: &[u8],
    a: &[u8],
    b: &[u8],
    limit: Option<u32>,
    parent: Keys,
    fetch: Option<u32>,
) -> Option<ChildOrders>
    requires { Asked r.now own.now a.now b.now parent }
    ensures { (o : Op) (fs : List sem.Facts) (ts : List (Option ℕ)) (m : ℕ) → SeenNode (decode r.now) o fs m (told own.now)
        (told a.now) (told b.now) → limit ≡ fetch_op o ts
        → HandsOn m (walk.pushdown_requirement_to_children o limit m fs (keys_of parent) fetch) result }
{
    if fetch_blocks(r, fetch) {
        return None;
    }
    if through_fetch(r, own, a, limit) {
        return handle_fetch(r, own, parent);
    }
    push_by_kind(r, own, a, b, parent)
}
