// plan_with_order_breaking_variants: nodes that keep their input's order replaced by ones that do not, as long as no node between asks
// for that order. Where an alternative is not accepted, the Rust puts this of it into the context's children and never into the plan,
// and the sort above cuts every later path to that context: the result reaches no answer, and the step does not ask for it.
ghost use Rattle.std.specs.Prelude.{◌≡◌, true, ◌+◌, ◌<◌, eqb, length};
ghost use Rattle.plan.specs.Numbers.{code};
ghost use Rattle.plan_codec.specs.Decode.{decode};
ghost use Rattle.walks.specs.Marks.{known, size_t};
ghost use Rattle.walks.specs.OrderPreserving as walk;
ghost use Rattle.arena.specs.Arena.{slot};
ghost use Rattle.plan_context.specs.View.{tree_of, forest, Arena, Grown, Puts};
ghost use Rattle.order_breaking_plans.specs.Breaking.{broken_repartition, broken_merge, Broke, break_one};
ghost use Rattle.order_preservation_marks.specs.Entering.{Enters};

use arena::{At, child, child_count, read64, record_at};
use met_orders::meets;
use new_records::{coalesce_record, with_mark};
use node_properties::{is_repartition, is_sort_preserving_merge};
use order_preservation_marks::marking::maintains_input_order;
use plan_context::handles::set_mark;
use plan_context::kept::row;
use plan_updates::{put_over, update_plan_from_children};
use wanted_inputs::wanted_order;

// Whether child j of node i is entered: the node maintains its order, and asks for none that it has, unless the node is a merge.
fn enters(m: &[u8], i: usize, j: usize) -> bool
    requires { Arena m.now (i + 1) × (j < length (slot m.now i).kids) }
    ensures { result ≡ walk.enters (decode (slot m.now i).rec) (known (forest m.now (slot m.now i).kids)) j }
{
    if !maintains_input_order(m, i, j) {
        return false;
    }
    let r = record_at(m, i);
    if is_sort_preserving_merge(r) {
        return true;
    }
    let order = wanted_order(r, j);
    let Some(keys) = order else {
        return true;
    };
    let k = child(m, i, j);
    !meets(row(m, k), keys)
}

// A repartition with the record r, node i before its children changed, over the children ks: without the preserve mark, where it
// kept the order.
fn break_repartition(m: &mut [u8], w: usize, i: usize, r: &[u8], ks: &[usize]) -> At
    requires { Puts m.old w r.now ks.now × (i < w) × (r.now ≡ (slot m.old i).rec) × (eqb (code (decode r.now)) 5 ≡ true) }
    ensures { Grown m.old w m.new result
        (broken_repartition (decode r.now) (forest m.old (slot m.old i).kids) (forest m.old ks.now))
        (w + 1) }
{
    if maintains_input_order(m, i, 0) {
        let x = with_mark(r, false);
        return put_over(m, w, &x, set_mark(ks[0], false));
    }
    update_plan_from_children(m, w, r, ks, i)
}

// A merge with the record r over the children ks: a coalesce with its fetch.
fn break_merge(m: &mut [u8], w: usize, r: &[u8], ks: &[usize]) -> At
    requires { Puts m.old w r.now ks.now × (eqb (code (decode r.now)) 8 ≡ true) }
    ensures { Grown m.old w m.new result (broken_merge (decode r.now) (forest m.old ks.now))
        (w + 1) }
{
    let x = coalesce_record(node_fetches::fetch(r));
    put_over(m, w, &x, set_mark(ks[0], false))
}

// Node i over the children ks, which its own became.
fn break_over(m: &mut [u8], w: usize, i: usize, ks: &[usize]) -> At
    requires { Puts m.old w (slot m.old i).rec ks.now × (i < w) }
    ensures { Grown m.old w m.new result (Broke m.old i ks.now) (w + 1) }
{
    let r = read64(record_at(m, i));
    if is_repartition(&r) {
        return break_repartition(m, w, i, &r, ks);
    }
    if is_sort_preserving_merge(&r) {
        return break_merge(m, w, &r, ks);
    }
    update_plan_from_children(m, w, &r, ks, i)
}

// The tree at h, if it is entered; otherwise it stays.
fn break_entered(m: &mut [u8], u: usize, h: usize, entered: bool) -> At
    requires { Enters m.old u h }
    ensures { Grown m.old u m.new result (break_one entered (tree_of m.old h)) (u + size_t (tree_of m.old h)) }
{
    if !entered {
        return At { used: u, root: h };
    }
    let i = h / 2;
    let n = child_count(m, i);
    let mut kids = [0usize; 8];
    let mut w = u;
    for j in 0..n {
        let k = child(m, i, j);
        let e = enters(m, i, j);
        let r = break_entered(m, w, k, e);
        w = r.used;
        kids[j] = r.root;
    }
    break_over(m, w, i, &kids[..n])
}

// The tree at h.
pub fn plan_with_order_breaking_variants(m: &mut [u8], u: usize, h: usize) -> At
    requires { Enters m.old u h }
    ensures { Grown m.old u m.new result (walk.plan_with_order_breaking_variants (tree_of m.old h))
        (u + size_t (tree_of m.old h)) }
{
    break_entered(m, u, h, true)
}
