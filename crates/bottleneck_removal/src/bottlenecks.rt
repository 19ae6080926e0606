// Coalesces, and repartitions that become idle, are taken out below a sort, a merge or a coalesce.
ghost use Rattle.std.specs.Prelude.{◌≡◌, true, false, not, ◌&&◌, ◌+◌, ◌<◌, length, take};
ghost use Rattle.semantics.specs.Properties.{singles};
ghost use Rattle.plan_codec.specs.Decode.{decode};
ghost use Rattle.record_fields.specs.Proper.{Proper};
ghost use Rattle.walks.specs.Marks.{shape, over, size_t};
ghost use Rattle.walks.specs.ParallelizeSorts.{bottleneck, first_is, without_self, idle, lift_first, without_idle, skip_same};
ghost use Rattle.arena.specs.Arena.{slot};
ghost use Rattle.plan_context.specs.View.{tree_of, forest, Arena, Grown, Over, Puts};
ghost use Rattle.bottleneck_removal.specs.Skipping.{Skips};
ghost use Rattle.bottleneck_removal.specs.IdleNodes.{Lifts};
ghost use Rattle.bottleneck_removal.specs.Removing.{open_one, Opens};

use crate::marks::is_bottleneck;
use arena::{At, child, child_count, read64, record_at};
use asked_facts::streams;
use node_properties::{hash_mark, is_repartition, same_partitioning, streams_field};
use plan_context::handles::{is_marked, set_mark};
use plan_context::kept::row;
use plan_updates::update_plan_from_children;
use wanted_inputs::wants_single;

// The first tree below the coalesce at h, past repartitions that are equal to the node with the record r.
fn skip_same(m: &[u8], r: &[u8], h: usize) -> usize
    requires { Proper r.now × Skips m.now h }
    ensures { (result < h) × (tree_of m.now result ≡ skip_same (decode r.now) (tree_of m.now h)
        (tree_of m.now h).kids) }
{
    let mut k = child(m, h / 2, 0);
    // A while, since how far it climbs down no count says before.
    while same_partitioning(r, record_at(m, k / 2)) {
        k = child(m, k / 2, 0);
    }
    k
}

// Whether the first child of node i, which has the record r, is a coalesce that can be taken out.
fn removes_first(m: &[u8], r: &[u8], i: usize) -> bool
    requires { Arena m.now (i + 1) × (r.now ≡ (slot m.now i).rec) }
    ensures { result ≡ first_is bottleneck (forest m.now (slot m.now i).kids)
        && not (singles (decode (slot m.now i).rec) 0) }
{
    if child_count(m, i) == 0 {
        return false;
    }
    if wants_single(r, 0) {
        return false;
    }
    let k = child(m, i, 0);
    is_bottleneck(record_at(m, k / 2))
}

// The handles of the children of node i.
fn children_of(m: &[u8], i: usize) -> [usize; 8]
    requires { Arena m.now (i + 1) }
    ensures { (length result ≡ 8) × (take (length (slot m.now i).kids) result ≡ (slot m.now i).kids) }
{
    let n = child_count(m, i);
    let mut kids = [0usize; 8];
    for j in 0..n {
        kids[j] = child(m, i, j);
    }
    kids
}

// Whether the node with the record r is a repartition that does nothing over the children ks.
fn is_idle(m: &[u8], r: &[u8], ks: &[usize]) -> bool
    requires { Over m.now r.now ks.now }
    ensures { result ≡ idle (shape (decode r.now)) (decode r.now) (forest m.now ks.now) }
{
    if !is_repartition(r) {
        return false;
    }
    let k = ks[0];
    let same_streams = streams_field(r) == streams(row(m, k));
    (!hash_mark(r) & same_streams) | same_partitioning(r, record_at(m, k / 2))
}

// The node with the record r put back over the children ks, marked; where it is idle, its child. Slot i holds it as it was.
fn without_idle(m: &mut [u8], u: usize, r: &[u8], ks: &[usize], i: usize) -> At
    requires { Puts m.old u r.now ks.now × (i < u) }
    ensures { Grown m.old u m.new result
        (without_idle (record { op = decode r.now; mark = true }) (forest m.old ks.now)) (u + 1) }
{
    if is_idle(m, r, ks) {
        return At {
            used: u,
            root: ks[0],
        };
    }
    let a = update_plan_from_children(m, u, r, ks, i);
    At {
        used: a.used,
        root: set_mark(a.root, true),
    }
}

// Node i, with the record r, whose first child, a coalesce, gives its place to what stands below it.
fn lift_first(m: &mut [u8], u: usize, r: &[u8], i: usize) -> At
    requires { Lifts m.old u i r.now }
    ensures { Grown m.old u m.new result
        (without_idle (record { op = decode r.now; mark = true })
        (lift_first (decode r.now) (forest m.old (slot m.old i).kids))) (u + 1) }
{
    let n = child_count(m, i);
    let k = child(m, i, 0);
    let mut kids = children_of(m, i);
    kids[0] = skip_same(m, r, k);
    without_idle(m, u, r, &kids[..n], i)
}

// The tree at h, if it is connected: the coalesce that is its first child goes, or its connected children are rewritten.
// removable: its parent wants no single stream of it.
fn remove_bottleneck_in_subplan_impl(m: &mut [u8], u: usize, h: usize, removable: bool) -> At
    requires { Opens m.old u h }
    ensures { Grown m.old u m.new result (open_one removable (tree_of m.old h)) (u + size_t (tree_of m.old h)) }
{
    if !(is_marked(h) & removable) {
        return At { used: u, root: h };
    }
    let i = h / 2;
    let r = read64(record_at(m, i));
    if removes_first(m, &r, i) {
        return lift_first(m, u, &r, i);
    }
    let n = child_count(m, i);
    let mut kids = [0usize; 8];
    let mut w = u;
    for j in 0..n {
        let k = child(m, i, j);
        let one = wants_single(&r, j);
        let a = remove_bottleneck_in_subplan_impl(m, w, k, !one);
        w = a.used;
        kids[j] = a.root;
    }
    without_idle(m, w, &r, &kids[..n], i)
}

// What stands below the node with the record r and the only child at h, without bottlenecks: the caller takes the node itself out.
pub fn remove_bottleneck_in_subplan(m: &mut [u8], u: usize, r: &[u8], h: usize) -> At
    requires { Opens m.old u h × Proper r.now }
    ensures { Grown m.old u m.new result (without_self (over (decode r.now) false (tree_of m.old h)))
        (u + size_t (tree_of m.old h)) }
{
    if is_bottleneck(record_at(m, h / 2)) {
        let k = skip_same(m, r, h);
        return At { used: u, root: k };
    }
    remove_bottleneck_in_subplan_impl(m, u, h, true)
}
