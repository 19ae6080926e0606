// Which nodes are connected to a sort below them.
ghost use Rattle.std.specs.Prelude.{◌≡◌, ◌*◌, ◌<◌, length};
ghost use Rattle.semantics.specs.Properties.{maintains as maintainsOp};
ghost use Rattle.arena.specs.Arena.{index, slot, Below};
ghost use Rattle.walks.specs.Marks.{op_t, known, any_mark};
ghost use Rattle.walks.specs.EnsureSorting.{connected};
ghost use Rattle.plan_context.specs.View.{tree_of, Arena};
ghost use Rattle.sort_connection.specs.Standing.{Standing};
ghost use Rattle.sort_connection.specs.Connection.{maintains_unasked, any_maintains_unasked, Connected};

use arena::{child, child_count, record_at};
use maintained_orders::maintains;
use node_properties::{is_limit, is_sort, is_sort_preserving_merge};
use plan_context::handles::{is_marked, set_mark};
use plan_context::kept::row;
use wanted_inputs::wanted_order;

// Whether the node maintains the order of its child j.
pub fn maintains_child(m: &[u8], u: usize, h: usize, j: usize) -> bool
    requires { Standing m.now u h × (j < length (slot m.now (index h)).kids) }
    ensures { result ≡ maintainsOp (op_t (tree_of m.now h)) (known (tree_of m.now h).kids) j }
{
    let i = h / 2;
    let k = child(m, i, j);
    maintains(record_at(m, i), row(m, h), row(m, k), j)
}

// and wants no order of it.
fn maintains_unasked(m: &[u8], u: usize, h: usize, j: usize) -> bool
    requires { Standing m.now u h × (j < length (slot m.now (index h)).kids) }
    ensures { result ≡ maintains_unasked (tree_of m.now h) j }
{
    let o = wanted_order(record_at(m, h / 2), j);
    if let Some(_) = o {
        return false;
    }
    maintains_child(m, u, h, j)
}

// Whether there is such a child.
fn any_maintained(m: &[u8], u: usize, h: usize) -> bool
    requires { Standing m.now u h }
    ensures { result ≡ any_maintains_unasked (tree_of m.now h) }
{
    let n = child_count(m, h / 2);
    for j in 0..n {
        if maintains_unasked(m, u, h, j) {
            return true;
        }
    }
    false
}

// Whether a child is marked.
pub fn any_marked(m: &[u8], u: usize, h: usize) -> bool
    requires { Standing m.now u h }
    ensures { result ≡ any_mark (tree_of m.now h).kids }
{
    let i = h / 2;
    let n = child_count(m, i);
    for j in 0..n {
        if is_marked(child(m, i, j)) {
            return true;
        }
    }
    false
}

// Whether the node is connected to a sort below it: a child is, and the order of some child, not of that one, comes through unasked.
pub fn is_connected(m: &[u8], u: usize, h: usize) -> bool
    requires { Standing m.now u h }
    ensures { result ≡ connected (op_t (tree_of m.now h)) (tree_of m.now h).kids }
{
    let r = record_at(m, h / 2);
    if is_sort(r) {
        return true;
    }
    if is_limit(r) {
        return false;
    }
    if !any_marked(m, u, h) {
        return false;
    }
    if is_sort_preserving_merge(r) {
        return true;
    }
    any_maintained(m, u, h)
}

// The marks of a node's children put right.
pub fn update_sort_ctx_children_data(m: &[u8], u: usize, ks: &mut [usize])
    requires { Arena m.now u × Below (2 * u) ks.old }
    ensures { Connected m.now u ks.old ks.new }
{
    for k in ks.iter_mut() {
        let h = *k;
        let b = is_connected(m, u, h);
        *k = set_mark(h, b);
    }
}
