// A decision carried out over the walked children.
ghost use Rattle.std.specs.Prelude.{◌≡◌, ℕ, ◌+◌, ◌<◌, length};
ghost use Rattle.plan_codec.specs.Encode.{encode};
ghost use Rattle.arena.specs.Arena.{slot};
ghost use Rattle.key_lists.specs.Keys.{order_of};
ghost use Rattle.walks.specs.Marks.{cover};
ghost use Rattle.walks.specs.Utils.{new_sort, new_merge};
ghost use Rattle.plan_context.specs.View.{tree_of, forest, Arena, Grown};
ghost use Rattle.push_visits.specs.Carried.{op_by, below_by, carried_by, Topping, Carries};

use crate::visiting::child_row;
use arena::{At, read64, record_at};
use asked_facts::counts;
use key_lists::Keys;
use new_records::{merge_record, sort_record, with_mark};
use node_properties::preserve_mark;
use plan_updates::{put, put_over, rebuilt};
use sort_pushdown::Decision;

// A sort of the order over the tree at h; of no order, none.
fn sort_over(
    b: &mut [u8],
    u: usize,
    h: usize,
    order: Option<Keys>,
    fetch: Option<u32>,
    preserve: bool,
) -> At
    requires { Topping b.old u h order (new_sort preserve (order_of order) fetch) }
    ensures { Grown b.old u b.new result (cover (new_sort preserve (order_of order) fetch) (tree_of b.old h)) (u + 1) }
{
    let Some(k) = order else {
        return At { used: u, root: h };
    };
    let r = sort_record(preserve, k, fetch);
    put_over(b, u, &r, h)
}

// The same for a merge.
fn merge_over(b: &mut [u8], u: usize, h: usize, order: Option<Keys>, fetch: Option<u32>) -> At
    requires { Topping b.old u h order (new_merge (order_of order) fetch) }
    ensures { Grown b.old u b.new result (cover (new_merge (order_of order) fetch) (tree_of b.old h)) (u + 1) }
{
    let Some(k) = order else {
        return At { used: u, root: h };
    };
    let r = merge_record(k, fetch);
    put_over(b, u, &r, h)
}

// The record of node i, rebuilt over its children as they are, if the decision says so.
fn record_by(a: &[u8], ua: usize, i: usize, rebuilds: bool) -> [u8; 64]
    requires { Arena a.now ua × (i < ua) }
    ensures { result ≡ encode (length (slot a.now i).kids) (op_by a.now i rebuilds) }
{
    let r = record_at(a, i);
    if rebuilds {
        let p = counts(preserve_mark(r), child_row(a, ua, i, 0));
        return with_mark(r, p);
    }
    read64(r)
}

// The node over the walked children, or its first child if it goes.
fn below_tops(
    a: &[u8],
    ua: usize,
    i: usize,
    b: &mut [u8],
    w: usize,
    d: Decision,
    kids: &[usize],
) -> At
    requires { Carries a.now ua i b.old w d kids.now }
    ensures { Grown b.old w b.new result (below_by a.now i d (forest b.old kids.now)) (w + 1) }
{
    if d.gone {
        return At {
            used: w,
            root: kids[0],
        };
    }
    let x = record_by(a, ua, i, d.rebuilt);
    let y = rebuilt(b, &x, kids);
    put(b, w, &y, kids);
    At {
        used: w + 1,
        root: 2 * w,
    }
}

// The new nodes over it.
pub fn carry_out(
    a: &[u8],
    ua: usize,
    i: usize,
    b: &mut [u8],
    w: usize,
    d: Decision,
    kids: &[usize],
) -> At
    requires { Carries a.now ua i b.old w d kids.now }
    ensures { Grown b.old w b.new result (carried_by a.now i d (forest b.old kids.now)) (w + 3) }
{
    let t = below_tops(a, ua, i, b, w, d, kids);
    let tops = d.tops;
    let sort = tops.sort;
    let sfetch = tops.sfetch;
    let merge = tops.merge;
    let mfetch = tops.mfetch;
    let s = sort_over(b, t.used, t.root, sort, sfetch, tops.preserve);
    merge_over(b, s.used, s.root, merge, mfetch)
}
