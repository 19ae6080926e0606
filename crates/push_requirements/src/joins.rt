// How an order goes past a join.
ghost use Rattle.std.specs.Prelude.{◌≡◌, true, ◌&&◌, ℕ, ◌-◌, ◌<◌, ◌≤◌, leb};
ghost use Rattle.row_order.specs.Lists.{All};
ghost use Rattle.plan.specs.WellFormed.{every};
ghost use Rattle.plan_codec.specs.Decode.{decode};
ghost use Rattle.semantics.specs.Facts as sem;
ghost use Rattle.semantics.specs.Properties.{kept_side};
ghost use Rattle.key_lists.specs.Keys.{keys_of};
ghost use Rattle.asked_facts.specs.Asked.{told, FactRow};
ghost use Rattle.walks.specs.SortPushdown as walk;
ghost use Rattle.push_requirements.specs.Pushing.{HandsOn, JoinRows};

use crate::ChildOrders;
use crate::requirements::keys_in;
use asked_facts::{known_order, width};
use join_orders::{join_order, sort_merge_kept};
use join_sides::{JoinSide, expr_source_side};
use key_list_algebra::drop_repeats;
use key_lists::{Keys, order_of};
use maintained_orders::hash_keeps;
use met_orders::{compatible, meets};
use moved_requirements::{all_from, moved_back};
use plan::JoinType;
use wanted_inputs::wanted_order;

// To the right child, if the join maintains it and all columns are the right child's; width, right: the columns of the join and of that child.
pub fn handle_hash_join(
    t: JoinType,
    width: usize,
    right: usize,
    parent: Keys,
) -> Option<ChildOrders>
    requires { (parent.len ≤ 8) × (width ≤ 32) × (kept_side (sem.hash_kept t) 1 ≡ true → right ≤ width) }
    ensures { (m : ℕ) → HandsOn m (walk.go_if (kept_side (sem.hash_kept t) 1 && every (λ k. leb (width - right) k.col) (keys_of parent))
        (walk.on_right (walk.add_offset_to_physical_sort_exprs (width - right) (keys_of parent)))) result }
{
    if !hash_keeps(t, 1) {
        return None;
    }
    let off = width - right;
    if !all_from(off, parent) {
        return None;
    }
    let rest = order_of(moved_back(off, parent));
    Some(ChildOrders {
        first: None,
        rest: rest,
    })
}

// Whether what is required is met once the node's order is a new one.
fn meets_reordered(own: &[u8], new: Keys, parent: Keys) -> bool
    requires { FactRow own.now × (new.len ≤ 8) }
    ensures { result ≡ sem.met (walk.reorder_to (told own.now) (keys_of new)) (keys_of parent) }
{
    if new.len == 0 {
        return meets(own, parent);
    }
    compatible(own, new, parent)
}

// try_pushdown_requirements_to_join, to the left side.
fn try_left(
    r: &[u8],
    own: &[u8],
    a: &[u8],
    b: &[u8],
    t: JoinType,
    parent: Keys,
    keys: Keys,
) -> Option<ChildOrders>
    requires { JoinRows t r.now own.now a.now b.now × (keys.len ≤ 8) × All (λ k. k.col < (told a.now).width) (keys_of keys) }
    ensures { HandsOn 2 (walk.try_pushdown_requirements_to_join (decode r.now) t (told own.now) (told a.now)
        (told b.now) (keys_of parent) (keys_of keys) 0) result }
{
    let wanted = keys_in(wanted_order(r, 0));
    if !compatible(a, keys, wanted) {
        return None;
    }
    let dropped = drop_repeats(keys);
    let other = keys_in(known_order(b));
    let new = join_order(t, sort_merge_kept(t), width(a), dropped, other);
    if !meets_reordered(own, new, parent) {
        return None;
    }
    let first = order_of(dropped);
    let rest = wanted_order(r, 1);
    Some(ChildOrders {
        first: first,
        rest: rest,
    })
}

// The same, to the right side. Apart, for one function over the side would branch on it at each of five places where the two differ.
fn try_right(
    r: &[u8],
    own: &[u8],
    a: &[u8],
    b: &[u8],
    t: JoinType,
    parent: Keys,
    keys: Keys,
) -> Option<ChildOrders>
    requires { JoinRows t r.now own.now a.now b.now × (keys.len ≤ 8) × All (λ k. k.col < (told b.now).width) (keys_of keys) }
    ensures { HandsOn 2 (walk.try_pushdown_requirements_to_join (decode r.now) t (told own.now) (told a.now)
        (told b.now) (keys_of parent) (keys_of keys) 1) result }
{
    let wanted = keys_in(wanted_order(r, 1));
    if !compatible(b, keys, wanted) {
        return None;
    }
    let dropped = drop_repeats(keys);
    let other = keys_in(known_order(a));
    let new = join_order(t, sort_merge_kept(t), width(a), other, dropped);
    if !meets_reordered(own, new, parent) {
        return None;
    }
    let rest = order_of(dropped);
    let first = wanted_order(r, 0);
    Some(ChildOrders {
        first: first,
        rest: rest,
    })
}

// To the side on which the order stands, in that side's columns.
pub fn try_pushdown_requirements_to_join(
    r: &[u8],
    own: &[u8],
    a: &[u8],
    b: &[u8],
    t: JoinType,
    parent: Keys,
) -> Option<ChildOrders>
    requires { JoinRows t r.now own.now a.now b.now × (parent.len ≤ 8) × All (λ k. k.col < (told own.now).width) (keys_of parent) }
    ensures { HandsOn 2 (walk.push_to_side (decode r.now) t (told own.now) (told a.now) (told b.now)
        (keys_of parent) (walk.expr_source_side (told own.now) (keys_of parent) t (told a.now).width)) result }
{
    let side = expr_source_side(own, parent, t, width(a));
    match side {
        JoinSide::Left(keys) => try_left(r, own, a, b, t, parent, keys),
        JoinSide::Right(keys) => {
            let off = width(own) - width(b);
            try_right(r, own, a, b, t, parent, moved_back(off, keys))
        }
        JoinSide::Neither => None,
    }
}
