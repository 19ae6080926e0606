// A coalesce and a sort over it give their place to a sort of each stream and a merge over it.
ghost use Rattle.std.specs.Prelude.{◌≡◌, true, false, ◌+◌};
ghost use Rattle.plan_codec.specs.Decode.{decode};
ghost use Rattle.record_fields.specs.Proper.{Proper};
ghost use Rattle.walks.specs.Marks.{fact, over, shape, size_t};
ghost use Rattle.walks.specs.Utils.{is_coalesce_partitions};
ghost use Rattle.walks.specs.ParallelizeSorts.{parallel_by};
ghost use Rattle.plan_context.specs.View.{tree_of, Grown, Here};
ghost use Rattle.parallelize_sorts.specs.Exprs.{Exprs, cascades};
ghost use Rattle.parallelize_sorts.specs.Cascading.{Rebuilds};

use crate::SortExprs;
use arena::At;
use asked_facts::several_streams;
use bottleneck_removal::bottlenecks::remove_bottleneck_in_subplan;
use new_records::{coalesce_record, merge_record};
use node_fetches::fetch;
use node_properties::{fetch_field, is_sort, is_sort_preserving_merge, keys, preserve_mark};
use plan_context::kept::row;
use plan_updates::put_over;
use utils::add_sort_above_with_check;

pub fn get_sort_exprs(r: &[u8]) -> SortExprs
    requires { Proper r.now }
    ensures { Exprs (shape (decode r.now)) result }
{
    let k = keys(r);
    let f = fetch_field(r);
    SortExprs { keys: k, fetch: f }
}

// Whether the node with the record r is a sort or a merge that gives one stream over the tree at h.
pub fn sorts_one_stream(m: &[u8], r: &[u8], h: usize) -> bool
    requires { Proper r.now × Here m.now h }
    ensures { result ≡ cascades (decode r.now) (fact (tree_of m.now h)) }
{
    if is_sort_preserving_merge(r) {
        return true;
    }
    if !is_sort(r) {
        return false;
    }
    !(preserve_mark(r) & several_streams(row(m, h)))
}

// The sort or merge with the record r over the tree at h: a merge over a sort of what is left below it.
pub fn cascade(m: &mut [u8], u: usize, r: &[u8], h: usize) -> At
    requires { Rebuilds m.old u r.now h × (cascades (decode r.now) (fact (tree_of m.old h)) ≡ true) }
    ensures { Grown m.old u m.new result
        (parallel_by (shape (decode r.now)) (over (decode r.now) false (tree_of m.old h)))
        (u + size_t (tree_of m.old h) + 2) }
{
    let e = get_sort_exprs(r);
    let keys = e.keys;
    let fetch = e.fetch;
    let a = remove_bottleneck_in_subplan(m, u, r, h);
    let s = add_sort_above_with_check(m, a.used, a.root, keys, fetch);
    let x = merge_record(keys, fetch);
    put_over(m, s.used, &x, s.root)
}

// The coalesce with the record r over the tree at h: over what is left below it.
pub fn coalesce_again(m: &mut [u8], u: usize, r: &[u8], h: usize) -> At
    requires { Rebuilds m.old u r.now h × (is_coalesce_partitions (decode r.now) ≡ true) }
    ensures { Grown m.old u m.new result
        (parallel_by (shape (decode r.now)) (over (decode r.now) false (tree_of m.old h)))
        (u + size_t (tree_of m.old h) + 2) }
{
    let f = fetch(r);
    let a = remove_bottleneck_in_subplan(m, u, r, h);
    let x = coalesce_record(f);
    put_over(m, a.used, &x, a.root)
}
