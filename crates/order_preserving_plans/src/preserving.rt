// plan_with_order_preserving_variants: the nodes on the marked paths, with those that lose their input's order replaced by ones that
// keep it.
ghost use Rattle.std.specs.Prelude.{◌≡◌, true, false, ◌+◌, ◌<◌, eqb};
ghost use Rattle.plan.specs.Numbers.{code};
ghost use Rattle.plan_codec.specs.Decode.{decode};
ghost use Rattle.walks.specs.Marks.{size_t};
ghost use Rattle.walks.specs.Trees.{OkT};
ghost use Rattle.walks.specs.OrderPreserving.{merge_over, plan_with_order_preserving_variants};
ghost use Rattle.arena.specs.Arena.{slot};
ghost use Rattle.plan_context.specs.View.{tree_of, forest, Grown, Puts};
ghost use Rattle.order_preservation_marks.specs.Marking.{is_fetched_coalesce};
ghost use Rattle.order_preserving_plans.specs.Preserving.{preserved_repartition, Became, preserve_one, Preserves};

use arena::{At, child, child_count, read64, record_at};
use asked_facts::known_order;
use new_records::{merge_record, with_mark};
use node_properties::{is_coalesce_partitions, is_repartition};
use order_preservation_marks::marking::{is_fetched_coalesce, maintains_input_order};
use plan_context::handles::{is_marked, set_mark};
use plan_context::kept::row;
use plan_updates::{put_over, update_plan_from_children};

// A repartition with the record r, node i before its children changed, over the children ks: "with_preserve_order", where that is
// better.
fn preserve_repartition(m: &mut [u8], w: usize, i: usize, r: &[u8], ks: &[usize], spr: bool) -> At
    requires { Puts m.old w r.now ks.now × (i < w) × (r.now ≡ (slot m.old i).rec) × (eqb (code (decode r.now)) 5 ≡ true) }
    ensures { Grown m.old w m.new result
        (preserved_repartition spr (decode r.now) (forest m.old (slot m.old i).kids)
        (forest m.old ks.now)) (w + 1) }
{
    if !maintains_input_order(m, i, 0) & spr {
        let x = with_mark(r, true);
        let one = [set_mark(ks[0], true)];
        return update_plan_from_children(m, w, &x, &one, i);
    }
    update_plan_from_children(m, w, r, ks, i)
}

// A coalesce with the record r over the children ks: a merge of the child's known order with the sort's fetch, where that is better.
fn preserve_coalesce(
    m: &mut [u8],
    w: usize,
    i: usize,
    r: &[u8],
    ks: &[usize],
    spm: bool,
    fetch: Option<u32>,
) -> At
    requires { Puts m.old w r.now ks.now × (i < w) × (eqb (code (decode r.now)) 6 ≡ true)
        × OkT (merge_over spm fetch (record { op = decode r.now; mark = true }) (forest m.old ks.now)) }
    ensures { Grown m.old w m.new result (merge_over spm fetch (record { op = decode r.now; mark = true })
        (forest m.old ks.now)) (w + 1) }
{
    if !spm {
        return update_plan_from_children(m, w, r, ks, i);
    }
    let k = ks[0];
    let order = known_order(row(m, k));
    let Some(keys) = order else {
        return update_plan_from_children(m, w, r, ks, i);
    };
    let x = merge_record(keys, fetch);
    put_over(m, w, &x, set_mark(k, true))
}

// Node i over the children ks, which its own became.
fn preserve_over(
    m: &mut [u8],
    w: usize,
    i: usize,
    ks: &[usize],
    spr: bool,
    spm: bool,
    fetch: Option<u32>,
) -> At
    requires { Puts m.old w (slot m.old i).rec ks.now × (i < w) × (is_fetched_coalesce (decode (slot m.old i).rec) ≡ false)
        × OkT (Became m.old i ks.now spr spm fetch) }
    ensures { Grown m.old w m.new result (Became m.old i ks.now spr spm fetch) (w + 1) }
{
    let r = read64(record_at(m, i));
    if is_repartition(&r) {
        return preserve_repartition(m, w, i, &r, ks, spr);
    }
    if is_coalesce_partitions(&r) {
        return preserve_coalesce(m, w, i, &r, ks, spm, fetch);
    }
    update_plan_from_children(m, w, &r, ks, i)
}

// The tree at h, if it is marked; any other stays. A fetched coalesce stays too, unmarked, and nothing below it is entered.
fn preserve_marked(m: &mut [u8], u: usize, h: usize, spr: bool, spm: bool, fetch: Option<u32>) -> At
    requires { Preserves m.old u h fetch }
    ensures { Grown m.old u m.new result (preserve_one spr spm fetch (tree_of m.old h))
        (u + size_t (tree_of m.old h)) }
{
    if !is_marked(h) {
        return At { used: u, root: h };
    }
    let i = h / 2;
    if is_fetched_coalesce(record_at(m, i)) {
        return At {
            used: u,
            root: set_mark(h, false),
        };
    }
    let n = child_count(m, i);
    let mut kids = [0usize; 8];
    let mut w = u;
    for j in 0..n {
        let k = child(m, i, j);
        let r = preserve_marked(m, w, k, spr, spm, fetch);
        w = r.used;
        kids[j] = r.root;
    }
    preserve_over(m, w, i, &kids[..n], spr, spm, fetch)
}

// The tree at h, entered whether it is marked or not. spr: a repartition that preserves order is better; spm: so is a merge;
// fetch: that of the sort above.
pub fn plan_with_order_preserving_variants(
    m: &mut [u8],
    u: usize,
    h: usize,
    spr: bool,
    spm: bool,
    fetch: Option<u32>,
) -> At
    requires { Preserves m.old u h fetch }
    ensures { Grown m.old u m.new result (plan_with_order_preserving_variants spr spm fetch (tree_of m.old h))
        (u + size_t (tree_of m.old h)) }
{
    preserve_marked(m, u, set_mark(h, true), spr, spm, fetch)
}
