// enforce_sorting/mod.rs: replace_with_partial_sort, which works on one node.
#![tactic(auto)]

ghost use Rattle.std.specs.Prelude.{◌≡◌};
ghost use Rattle.walks.specs.Marks.{op_t, strip};
ghost use Rattle.walks.specs.PartialSort.{replace_with_partial_sort as replaced};
ghost use Rattle.plan_context.specs.View.{tree_of};
ghost use Rattle.sort_connection.specs.Standing.{Standing};
ghost use Rattle.replace_with_partial_sort.specs.Replacing.{becoming, Fitting};

use arena::{child, record_at};
use met_orders::met_keys;
use node_properties::{is_sort, keys};
use plan_context::kept::{row, summary};

// What becomes of the node at h: a partial sort with this many keys met, or nothing. A sort stays where its child is bounded, or meets none of its keys or all.
pub fn replace_with_partial_sort(m: &[u8], u: usize, h: usize) -> Option<usize>
    requires { Standing m.now u h }
    ensures { (replaced (op_t (tree_of m.now h)) (strip (tree_of m.now h).kids) ≡ becoming (op_t (tree_of m.now h)) result)
        × Fitting (op_t (tree_of m.now h)) result }
{
    let r = record_at(m, h / 2);
    if !is_sort(r) {
        return None;
    }
    let k = child(m, h / 2, 0);
    let s = summary(m, k);
    if !s.endless {
        return None;
    }
    let own = keys(r);
    let n = met_keys(row(m, k), own);
    if (n == 0) | (n == own.len) {
        return None;
    }
    Some(n)
}
