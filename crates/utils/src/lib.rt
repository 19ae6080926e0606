// utils.rs: sorts put above a node. Its tests of kinds (is_sort and the others) are node_properties'.
#![tactic(auto)]

ghost use Rattle.std.specs.Prelude.{false, ◌+◌};
ghost use Rattle.key_lists.specs.Keys.{keys_of};
ghost use Rattle.walks.specs.Utils.{add_sort_above, add_sort_above_with_distribution, add_sort_above_with_check};
ghost use Rattle.plan_context.specs.View.{tree_of, Grown};
ghost use Rattle.plan_updates.specs.Covering.{Under};
ghost use Rattle.utils.specs.Sorting.{Sortable};

use arena::At;
use asked_facts::several_streams;
use key_lists::Keys;
use met_orders::{fresh_keys, meets};
use new_records::{merge_record, sort_record};
use plan::Distribution;
use plan_context::kept::row;
use plan_updates::put_over;
use wanted_inputs::is_single;

// A sort of the keys, less the constants and a column's later repeats, over the tree at h; of no keys, none.
pub fn add_sort_above(m: &mut [u8], u: usize, h: usize, keys: Keys, fetch: Option<u32>) -> At
    requires { Under m.old u h 1 × Sortable (tree_of m.old h) (keys_of keys) fetch }
    ensures { Grown m.old u m.new result (add_sort_above (keys_of keys) fetch (tree_of m.old h)) (u + 1) }
{
    let own = row(m, h);
    let fresh = fresh_keys(own, keys);
    if fresh.len == 0 {
        return At { used: u, root: h };
    }
    let r = sort_record(several_streams(own), fresh, fetch);
    put_over(m, u, &r, h)
}

// Where the parent wants one stream and there are several, a merge of the same keys and fetch over the sort.
pub fn add_sort_above_with_distribution(
    m: &mut [u8],
    u: usize,
    h: usize,
    keys: Keys,
    fetch: Option<u32>,
    d: Distribution,
) -> At
    requires { Under m.old u h 2 × Sortable (tree_of m.old h) (keys_of keys) fetch }
    ensures { Grown m.old u m.new result (add_sort_above_with_distribution false (keys_of keys) fetch d (tree_of m.old h))
        (u + 2) }
{
    let own = row(m, h);
    let fresh = fresh_keys(own, keys);
    let gathers = several_streams(own) & is_single(d);
    let s = add_sort_above(m, u, h, keys, fetch);
    if gathers & (0 < fresh.len) {
        let r = merge_record(fresh, fetch);
        return put_over(m, s.used, &r, s.root);
    }
    s
}

// A sort only where the tree's order is not that of the keys already.
pub fn add_sort_above_with_check(
    m: &mut [u8],
    u: usize,
    h: usize,
    keys: Keys,
    fetch: Option<u32>,
) -> At
    requires { Under m.old u h 1 × Sortable (tree_of m.old h) (keys_of keys) fetch }
    ensures { Grown m.old u m.new result (add_sort_above_with_check (keys_of keys) fetch (tree_of m.old h)) (u + 1) }
{
    if meets(row(m, h), keys) {
        return At { used: u, root: h };
    }
    add_sort_above(m, u, h, keys, fetch)
}
