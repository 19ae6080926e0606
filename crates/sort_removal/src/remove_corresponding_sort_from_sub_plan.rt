// The sorts below a node removed: those that it is connected to.
ghost use Rattle.std.specs.Prelude.{◌≡◌, true, ◌+◌, ◌*◌};
ghost use Rattle.plan.specs.Numbers.{code};
ghost use Rattle.plan_codec.specs.Decode.{decode};
ghost use Rattle.plan_codec.specs.Encode.{encode};
ghost use Rattle.key_lists.specs.Keys.{order_of, Real};
ghost use Rattle.arena.specs.Arena.{index, marked, slot};
ghost use Rattle.walks.specs.Marks.{size_t};
ghost use Rattle.walks.specs.EnsureSorting.{single_stream_op, with_single_stream};
ghost use Rattle.plan_context.specs.View.{tree_of, Grown};
ghost use Rattle.sort_connection.specs.Standing.{Standing};
ghost use Rattle.sort_removal.specs.SingleStream.{AsksSingleStream};
ghost use Rattle.sort_removal.specs.Removing.{Rems, Overs, Removed, remove_one};
ghost use Rattle.sort_removal.specs.Recursion.{Removes};

use arena::{At, child, child_count, read64, record_at};
use asked_facts::{known_order, several_streams};
use key_lists::Keys;
use new_records::{coalesce_record, merge_record, with_mark};
use node_properties::{fetch_field, is_repartition, is_sort, is_sort_preserving_merge};
use plan_context::handles::{is_marked, set_mark};
use plan_context::kept::{fetch_at, row};
use plan_updates::{put_again, put_over, update_plan_from_children};
use sort_connection::update_sort_ctx_children_data::{
    any_marked, is_connected, update_sort_ctx_children_data,
};
use wanted_inputs::wants_single;

// A merge of the order, or a coalesce where there is none.
fn single_stream_record(order: Option<Keys>, fetch: Option<u32>) -> [u8; 64]
    requires { Real order }
    ensures { result ≡ encode 1 (single_stream_op (order_of order) fetch) }
{
    match order {
        None => coalesce_record(None),
        Some(k) => merge_record(k, fetch),
    }
}

// One stream of the tree at h, where a single one is required.
fn with_single_stream(m: &mut [u8], u: usize, h: usize, single: bool) -> At
    requires { AsksSingleStream m.old u h single }
    ensures { Grown m.old u m.new result (with_single_stream single (tree_of m.old h)) (u + 1) }
{
    if !single {
        return At { used: u, root: h };
    }
    let own = row(m, h);
    if !several_streams(own) {
        return At { used: u, root: h };
    }
    let r = single_stream_record(known_order(own), fetch_at(m, h));
    let k = set_mark(h, is_connected(m, u, h));
    put_over(m, u, &r, k)
}

// The marks of the new children ks put right where an old one was marked or there is none; whether they were.
fn update_marks(m: &[u8], u: usize, h: usize, ks: &mut [usize]) -> bool
    requires { Rems m.now u h ks.old }
    ensures { Overs m.now u h ks.new result }
{
    let x = any_marked(m, u, h);
    if x | (ks.len() == 0) {
        update_sort_ctx_children_data(m, u, ks);
        return true;
    }
    false
}

// The node at h, not a sort, with the record r, over its new children ks; updated: their marks were put right.
fn remove_over(m: &mut [u8], u: usize, h: usize, r: &[u8], ks: &[usize], updated: bool) -> At
    requires { Overs m.old u h ks.now updated × (r.now ≡ (slot m.old (index h)).rec) × (code (decode r.now) ≡ 7 → ⊥) }
    ensures { Grown m.old u m.new result (Removed m.old h) (u + 1) }
{
    if is_sort_preserving_merge(r) {
        let k = set_mark(ks[0], !updated);
        return At { used: u, root: k };
    }
    if is_repartition(r) {
        let x = with_mark(r, false);
        let a = put_again(m, u, &x, ks, h / 2);
        let k = set_mark(a.root, !updated);
        return At {
            used: a.used,
            root: k,
        };
    }
    let a = update_plan_from_children(m, u, r, ks, h / 2);
    let k = set_mark(a.root, !updated);
    At {
        used: a.used,
        root: k,
    }
}

// The same, with their marks put right.
fn remove_by(m: &mut [u8], u: usize, h: usize, r: &[u8], ks: &mut [usize]) -> At
    requires { Rems m.old u h ks.old × (r.now ≡ (slot m.old (index h)).rec) × (code (decode r.now) ≡ 7 → ⊥) }
    ensures { Grown m.old u m.new result (Removed m.old h) (u + 1) }
{
    let updated = update_marks(m, u, h, ks);
    remove_over(m, u, h, r, ks, updated)
}

// A marked sort at h, with the record r: it goes, unless it has a fetch.
fn remove_sort(m: &mut [u8], u: usize, h: usize, r: &[u8], single: bool) -> At
    requires { Removes m.old u h × (marked h ≡ true) × (r.now ≡ (slot m.old (index h)).rec) × (code (decode r.now) ≡ 7) }
    ensures { Grown m.old u m.new result (remove_one single (tree_of m.old h)) (u + 2 * size_t (tree_of m.old h)) }
{
    if fetch_field(r).is_some() {
        return with_single_stream(m, u, h, single);
    }
    let k = child(m, h / 2, 0);
    with_single_stream(m, u, k, single)
}

// The tree at h: where it is marked, its connected children first. Single: one stream is required of it.
pub fn remove_corresponding_sort_from_sub_plan(m: &mut [u8], u: usize, h: usize, single: bool) -> At
    requires { Removes m.old u h }
    ensures { Grown m.old u m.new result (remove_one single (tree_of m.old h)) (u + 2 * size_t (tree_of m.old h)) }
{
    if !is_marked(h) {
        return At { used: u, root: h };
    }
    let i = h / 2;
    let r = read64(record_at(m, i));
    if is_sort(&r) {
        return remove_sort(m, u, h, &r, single);
    }
    let n = child_count(m, i);
    let mut kids = [0usize; 8];
    let mut w = u;
    for j in 0..n {
        let k = child(m, i, j);
        let one = wants_single(&r, j);
        let a = remove_corresponding_sort_from_sub_plan(m, w, k, one);
        w = a.used;
        kids[j] = a.root;
    }
    let x = remove_by(m, w, h, &r, &mut kids[..n]);
    with_single_stream(m, x.used, x.root, single)
}
