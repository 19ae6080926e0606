// update_order_preservation_ctx_children_data: a node is marked where a path leads from it down to a repartition or a coalesce that
// loses its input's order.
ghost use Rattle.std.specs.Prelude.{◌≡◌, ◌+◌, ◌<◌, length};
ghost use Rattle.plan_codec.specs.Decode.{decode};
ghost use Rattle.record_fields.specs.Proper.{Proper};
ghost use Rattle.semantics.specs.Properties as node;
ghost use Rattle.walks.specs.Marks.{known};
ghost use Rattle.walks.specs.OrderPreserving as walk;
ghost use Rattle.arena.specs.Arena.{slot};
ghost use Rattle.plan_context.specs.View.{tree_of, forest, Arena, Grown};
ghost use Rattle.order_preservation_marks.specs.Marking.{is_fetched_coalesce, Cut, any_marked, carry_one, Carrying, Updating, Updated};

use arena::{At, child, child_count, read64, record_at};
use asked_facts::is_ordered;
use maintained_orders::maintains;
use node_properties::{is_coalesce_partitions, is_repartition};
use plan_context::handles::{is_marked, set_mark};
use plan_context::kept::row;
use plan_updates::put_again;

// How many slots are used, and the handles of the children.
#[derive(Clone, Copy)]
pub struct Children {
    pub used: usize,
    pub kids: [usize; 8],
}

// Whether node i maintains the order of its child j.
pub fn maintains_input_order(m: &[u8], i: usize, j: usize) -> bool
    requires { Arena m.now (i + 1) × (j < length (slot m.now i).kids) }
    ensures { result ≡ node.maintains (decode (slot m.now i).rec) (known (forest m.now (slot m.now i).kids)) j }
{
    let k = child(m, i, j);
    maintains(record_at(m, i), row(m, 2 * i), row(m, k), j)
}

// Whether it is a coalesce with a fetch: that selects rows in arrival order.
pub fn is_fetched_coalesce(r: &[u8]) -> bool
    requires { Proper r.now }
    ensures { result ≡ is_fetched_coalesce (decode r.now) }
{
    is_coalesce_partitions(r) & node_fetches::fetch(r).is_some()
}

// Whether a path goes on from node i to its child j.
fn inspect_child(m: &[u8], i: usize, j: usize) -> bool
    requires { Arena m.now (i + 1) × (j < length (slot m.now i).kids) }
    ensures { result ≡ walk.inspect_child (decode (slot m.now i).rec) (known (forest m.now (slot m.now i).kids)) j }
{
    let r = record_at(m, i);
    maintains_input_order(m, i, j) | (is_coalesce_partitions(r) | is_repartition(r))
}

// The handles of the children of node i: the path is cut towards nodes whose order it does not maintain.
fn inspected(m: &[u8], i: usize) -> [usize; 8]
    requires { Arena m.now (i + 1) }
    ensures { Cut m.now i
        (walk.inspect_child (decode (slot m.now i).rec) (known (forest m.now (slot m.now i).kids))) result }
{
    let n = child_count(m, i);
    let mut kids = [0usize; 8];
    for j in 0..n {
        let k = child(m, i, j);
        let b = is_marked(k) & inspect_child(m, i, j);
        kids[j] = set_mark(k, b);
    }
    kids
}

// Whether one of them is marked.
fn any_marked(ks: &[usize]) -> bool
    ensures { result ≡ any_marked ks.now }
{
    ks.iter().any(|k| is_marked(*k))
}

// Whether node i is a repartition or a coalesce that loses its input's order.
fn initiates(m: &[u8], i: usize) -> bool
    requires { Arena m.now (i + 1) × (0 < length (slot m.now i).kids) }
    ensures { result ≡ walk.initiates (decode (slot m.now i).rec) (known (forest m.now (slot m.now i).kids)) }
{
    let r = record_at(m, i);
    let k = child(m, i, 0);
    (is_repartition(r) & !maintains_input_order(m, i, 0))
        | (is_coalesce_partitions(r) & is_ordered(row(m, k)))
}

// The mark of node i over the children ks, whose marks are cut. No path goes through a fetched coalesce.
fn carries(m: &[u8], i: usize, ks: &[usize]) -> bool
    requires { Arena m.now (i + 1) × (forest m.now ks.now ≡ walk.inspected (decode (slot m.now i).rec) (forest m.now (slot m.now i).kids)) }
    ensures { result ≡ walk.carries (decode (slot m.now i).rec) (forest m.now ks.now) }
{
    if ks.len() == 0 {
        return false;
    }
    let r = record_at(m, i);
    if is_fetched_coalesce(r) {
        return false;
    }
    if any_marked(ks) {
        return true;
    }
    initiates(m, i)
}

// The tree at h with its mark and its children's.
fn carry(m: &mut [u8], u: usize, h: usize) -> At
    requires { Carrying m.old u h }
    ensures { Grown m.old u m.new result (carry_one (tree_of m.old h)) (u + 1) }
{
    let i = h / 2;
    let n = child_count(m, i);
    let kids = inspected(m, i);
    let b = carries(m, i, &kids[..n]);
    let r = read64(record_at(m, i));
    let a = put_again(m, u, &r, &kids[..n], i);
    At {
        used: a.used,
        root: set_mark(a.root, b),
    }
}

// The children ks of an open node, each with its mark and its children's. The node itself is not marked.
pub fn update_order_preservation_ctx_children_data(m: &mut [u8], u: usize, ks: &[usize]) -> Children
    requires { Updating m.old u ks.now }
    ensures { Updated m.old u ks.now m.new result.used result.kids }
{
    let mut kids = [0usize; 8];
    let mut w = u;
    for j in 0..ks.len() {
        let r = carry(m, w, ks[j]);
        w = r.used;
        kids[j] = r.root;
    }
    Children {
        used: w,
        kids: kids,
    }
}
