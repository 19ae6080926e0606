// enforce_sorting/mod.rs: the ensuring walk's step at one node.
#![tactic(auto)]

ghost use Rattle.std.specs.Prelude.{◌≡◌, true, false, [], suc, ◌+◌, ◌*◌, ◌≤◌, ◌<◌, length, None};
ghost use Rattle.plan.specs.Forest.{size};
ghost use Rattle.plan.specs.Numbers.{code};
ghost use Rattle.plan_codec.specs.Decode.{from_bytes, decode};
ghost use Rattle.key_lists.specs.Keys.{keys_of, order_of, Real};
ghost use Rattle.walks.specs.Marks.{node, op_t, size_t, shape, rebuild};
ghost use Rattle.walks.specs.Trees.{OkT};
ghost use Rattle.walks.specs.Utils.{add_sort_above};
ghost use Rattle.walks.specs.EnsureSorting.{update_sort_ctx_children_data, ensure_child, after_loop, unmerged, finish as finished, ensure_marked, ensure_sorting};
ghost use Rattle.plan_context.specs.View.{tree_of, forest, Grown};
ghost use Rattle.plan_updates.specs.Opened.{step_room, Opened};
ghost use Rattle.utils.specs.Sorting.{Sortable};
ghost use Rattle.ensure_sorting.specs.Child.{Sorts, Ensures};
ghost use Rattle.ensure_sorting.specs.Finishing.{Finishes};
ghost use Rattle.ensure_sorting.specs.Loop.{Loops};
ghost use Rattle.ensure_sorting.specs.Step.{EnsuresMarked, KeysCopied};

use arena::{At, child, child_count, read64, record_at};
use asked_facts::{is_ordered, known_order, several_streams};
use immediate_sort_removal::analyze_immediate_sort_removal::analyze_immediate_sort_removal;
use key_lists::Keys;
use met_orders::{meets, meets_order, normal_form};
use new_records::local_limit_record;
use node_fetches::output_fetch;
use node_properties::{fetch_field, is_sort, is_sort_preserving_merge, keys};
use plan_context::handles::set_mark;
use plan_context::kept::row;
use plan_updates::{put, put_again, update_plan_from_children};
use sort_connection::update_sort_ctx_children_data::{
    is_connected, maintains_child, update_sort_ctx_children_data,
};
use sort_removal::update_child_to_remove_unnecessary_sort::update_child_to_remove_unnecessary_sort;
use utils::add_sort_above;
use wanted_inputs::{wanted_order, wants_single};

// ---- one child

// A marked sort over the tree at h, which is marked where it is connected to a sort.
fn add_marked_sort(m: &mut [u8], u: usize, h: usize, keys: Keys, fetch: Option<u32>) -> At
    requires { Sorts m.old u h (keys_of keys) fetch }
    ensures { Grown m.old u m.new result
        (update_sort_ctx_children_data true (add_sort_above (keys_of keys) fetch (tree_of m.old h))) (u + 1) }
{
    let k = set_mark(h, is_connected(m, u, h));
    let a = add_sort_above(m, u, k, keys, fetch);
    let x = set_mark(a.root, true);
    At {
        used: a.used,
        root: x,
    }
}

// No order is wanted of the tree at h: sorts below it go, unless its order is maintained.
fn ensure_unordered(m: &mut [u8], u: usize, h: usize, keeps: bool, single: bool) -> At
    requires { Ensures m.old u h }
    ensures { Grown m.old u m.new result (ensure_child [] keeps single None (tree_of m.old h))
        (u + 2 * size_t (tree_of m.old h) + 1) }
{
    let ordered = is_ordered(row(m, h));
    if !ordered | !keeps {
        return update_child_to_remove_unnecessary_sort(m, u, h, single);
    }
    At { used: u, root: h }
}

// An order is wanted of it.
fn ensure_ordered(
    m: &mut [u8],
    u: usize,
    h: usize,
    keys: Keys,
    single: bool,
    fetch: Option<u32>,
) -> At
    requires { Ensures m.old u h × (0 < keys.len) × Sortable (tree_of m.old h) (keys_of keys) fetch }
    ensures { Grown m.old u m.new result (ensure_child (keys_of keys) false single fetch (tree_of m.old h))
        (u + 2 * size_t (tree_of m.old h) + 1) }
{
    let own = row(m, h);
    let ordered = is_ordered(own);
    if meets(own, keys) {
        return At { used: u, root: h };
    }
    if !ordered {
        return add_marked_sort(m, u, h, keys, fetch);
    }
    let a = update_child_to_remove_unnecessary_sort(m, u, h, single);
    add_marked_sort(m, a.used, a.root, keys, fetch)
}

// The tree at h, of which the order is wanted. Keeps: the node maintains its order; single: it requires one stream; fetch: of a new sort.
fn ensure_child(
    m: &mut [u8],
    u: usize,
    h: usize,
    order: Option<Keys>,
    keeps: bool,
    single: bool,
    fetch: Option<u32>,
) -> At
    requires { Ensures m.old u h × Real order × Sortable (tree_of m.old h) (order_of order) fetch }
    ensures { Grown m.old u m.new result (ensure_child (order_of order) keeps single fetch (tree_of m.old h))
        (u + 2 * size_t (tree_of m.old h) + 1) }
{
    match order {
        None => ensure_unordered(m, u, h, keeps, single),
        Some(keys) => ensure_ordered(m, u, h, keys, single, fetch),
    }
}

// ---- the end of the step

// The node put back over its children, whose marks are put right.
fn update_over(m: &mut [u8], u: usize, h: usize, r: &[u8], ks: &mut [usize]) -> At
    requires { Finishes m.old u h r.now ks.old }
    ensures { Grown m.old u m.new result
        (update_sort_ctx_children_data false (rebuild (decode r.now) false (forest m.old ks.old))) (u + 1) }
{
    update_sort_ctx_children_data(m, u, ks);
    update_plan_from_children(m, u, r, ks, h / 2)
}

// A merge of one stream: it goes, or with a fetch it becomes a limit.
fn unmerge(m: &mut [u8], u: usize, h: usize, r: &[u8], ks: &[usize]) -> At
    requires { Finishes m.old u h r.now ks.now × (code (decode r.now) ≡ 8)
        × OkT (unmerged (from_bytes r.now).fetch (rebuild (decode r.now) false (forest m.old ks.now))) }
    ensures { Grown m.old u m.new result
        (unmerged (from_bytes r.now).fetch (rebuild (decode r.now) false (forest m.old ks.now))) (u + 1) }
{
    let fetch = fetch_field(r);
    if fetch.is_some() {
        let note = normal_form(row(m, ks[0]), keys(r));
        let x = local_limit_record(fetch, note);
        put(m, u, &x, ks);
        return At {
            used: u + 1,
            root: 2 * u,
        };
    }
    At {
        used: u,
        root: ks[0],
    }
}

// The node at h, with the record r, over its children after the loop.
fn finish(m: &mut [u8], u: usize, h: usize, r: &[u8], ks: &mut [usize]) -> At
    requires { Finishes m.old u h r.now ks.old }
    ensures { Grown m.old u m.new result
        (finished (shape (decode r.now)) (rebuild (decode r.now) false (forest m.old ks.old))) (u + 1) }
{
    if is_sort_preserving_merge(r) {
        let several = several_streams(row(m, ks[0]));
        if several {
            return update_over(m, u, h, r, ks);
        }
        return unmerge(m, u, h, r, ks);
    }
    update_over(m, u, h, r, ks)
}

// ---- the step

// The loop over the children of the node at h, and the end.
fn ensure_children(m: &mut [u8], u: usize, h: usize) -> At
    requires { Loops m.old u h }
    ensures { Grown m.old u m.new result (finished (shape (op_t (tree_of m.old h))) (after_loop (tree_of m.old h)))
        (u + 2 * size (tree_of m.old h).kids + 9) }
{
    let i = h / 2;
    let r = read64(record_at(m, i));
    let fetch = output_fetch(&r);
    let n = child_count(m, i);
    let mut kids = [0usize; 8];
    let mut w = u;
    for j in 0..n {
        let k = child(m, i, j);
        let keeps = maintains_child(m, w, h, j);
        let single = wants_single(&r, j);
        let order = wanted_order(&r, j);
        let a = ensure_child(m, w, k, order, keeps, single, fetch);
        w = a.used;
        kids[j] = a.root;
    }
    finish(m, w, h, &r, &mut kids[..n])
}

// The node at h, whose children's marks are right.
fn ensure_marked(m: &mut [u8], u: usize, h: usize) -> At
    requires { EnsuresMarked m.old u h }
    ensures { Grown m.old u m.new result (ensure_marked (tree_of m.old h))
        (u + 2 * size (tree_of m.old h).kids + 9) }
{
    let i = h / 2;
    if child_count(m, i) == 0 {
        return At { used: u, root: h };
    }
    if is_sort(record_at(m, i)) {
        let k = child(m, i, 0);
        if meets_order(row(m, k), known_order(row(m, h))) {
            return analyze_immediate_sort_removal(m, u, h);
        }
        return ensure_children(m, u, h);
    }
    ensure_children(m, u, h)
}

// The node with the record r over the children ks, whose marks are put right.
fn ensure_open(m: &mut [u8], u: usize, r: &[u8], ks: &mut [usize], i: usize) -> At
    requires { Opened m.old u r.now ks.old i }
    ensures { Grown m.old u m.new result
        (ensure_sorting (node (decode r.now) false (forest m.old ks.old)))
        (u + step_room (suc (size (forest m.old ks.old)))) }
{
    update_sort_ctx_children_data(m, u, ks);
    let a = put_again(m, u, r, ks, i);
    ensure_marked(m, a.used, a.root)
}

// The handles, in an array.
fn copied(ks: &[usize]) -> [usize; 8]
    requires { length ks.now ≤ 8 }
    ensures { KeysCopied ks.now (length ks.now) result }
{
    let mut out = [0usize; 8];
    out[..ks.len()].copy_from_slice(ks);
    out
}

// The step at the node with the record r over the children ks; slot i holds it as it was read.
pub fn ensure_sorting(m: &mut [u8], u: usize, r: &[u8], ks: &[usize], i: usize) -> At
    requires { Opened m.old u r.now ks.now i }
    ensures { Grown m.old u m.new result
        (ensure_sorting (node (decode r.now) false (forest m.old ks.now)))
        (u + step_room (suc (size (forest m.old ks.now)))) }
{
    let n = ks.len();
    let mut kids = copied(ks);
    ensure_open(m, u, r, &mut kids[..n], i)
}
