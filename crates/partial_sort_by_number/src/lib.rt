// Partial sorting of one node of a tree, found by its number in node order; the path above it is put anew.
#![tactic(auto)]

ghost use Rattle.std.specs.Prelude.{◌≡◌, false, ◌+◌, ◌≤◌, ◌<◌, length, take, set};
ghost use Rattle.plan.specs.Numbers.{code};
ghost use Rattle.plan_codec.specs.Decode.{decode};
ghost use Rattle.arena.specs.Arena.{index, slot};
ghost use Rattle.walks.specs.Marks.{node, op_t, strip};
ghost use Rattle.walks.specs.PartialSort.{replace_with_partial_sort as replaced};
ghost use Rattle.plan_context.specs.View.{tree_of, forest, Grown, Puts};
ghost use Rattle.sort_connection.specs.Standing.{Standing};
ghost use Rattle.replace_with_partial_sort.specs.Replacing.{partial};
ghost use Rattle.partial_sort_by_number.specs.AtNumber.{Located, Became, AnswersPartial};
ghost use Rattle.partial_sort_by_number.specs.ByNumber.{Sorting};

use arena::{At, child, child_count, read64, record_at};
use new_records::partial_sort_record;
use node_properties::{fetch_field, keys, preserve_mark};
use plan_context::kept::nodes;
use plan_updates::{put_again, put_over};
use replace_with_partial_sort::replace_with_partial_sort;

// A child of a node, and a number within its tree; behind the last child, how far.
#[derive(Clone, Copy)]
pub struct Place {
    pub child: usize,
    pub left: usize,
}

// Number n among the nodes below the node at h.
fn locate(m: &[u8], u: usize, h: usize, n: usize) -> Place
    requires { Standing m.now u h }
    ensures { Located m.now h n result }
{
    let i = h / 2;
    let c = child_count(m, i);
    let mut left = n;
    for j in 0..c {
        let s = nodes(m, child(m, i, j));
        if left < s {
            return Place {
                child: j,
                left: left,
            };
        }
        left -= s;
    }
    Place {
        child: c,
        left: left,
    }
}

// The handles of its children, with k in the place of child j.
fn with_child(m: &[u8], u: usize, h: usize, j: usize, k: usize) -> [usize; 8]
    requires { Standing m.now u h × (j < length (slot m.now (index h)).kids) }
    ensures { (length result ≡ 8) × (take (length (slot m.now (index h)).kids) result ≡ set (slot m.now (index h)).kids j k) }
{
    let i = h / 2;
    let c = child_count(m, i);
    let mut out = [0usize; 8];
    for l in 0..c {
        out[l] = child(m, i, l);
    }
    out[j] = k;
    out
}

// The sort at h as a partial sort with n keys met.
fn put_partial(m: &mut [u8], u: usize, h: usize, n: usize) -> At
    requires { Sorting m.old u h × (replaced (op_t (tree_of m.old h)) (strip (tree_of m.old h).kids) ≡ partial n (op_t (tree_of m.old h)))
        × (n ≤ 8) × (code (op_t (tree_of m.old h)) ≡ 7) }
    ensures { Became m.old u m.new h 0 result }
{
    let r = read64(record_at(m, h / 2));
    let k = child(m, h / 2, 0);
    let x = partial_sort_record(
        preserve_mark(&r),
        keys(&r),
        (n % 256) as u8,
        fetch_field(&r),
    );
    put_over(m, u, &x, k)
}

// The node at h itself.
fn replace_node(m: &mut [u8], u: usize, h: usize) -> Option<At>
    requires { Sorting m.old u h }
    ensures { AnswersPartial m.old u m.new h 0 result }
{
    let found = replace_with_partial_sort(m, u, h);
    match found {
        None => Some(At { used: u, root: h }),
        Some(n) => {
            let a = put_partial(m, u, h, n);
            Some(a)
        }
    }
}

// The node at h with k in the place of its child j.
fn put_child(m: &mut [u8], u: usize, h: usize, j: usize, k: usize) -> At
    requires { Standing m.old u h × (j < length (slot m.old (index h)).kids) × Puts m.old u (slot m.old (index h)).rec
        (set (slot m.old (index h)).kids j k) }
    ensures { Grown m.old u m.new result
        (node (decode (slot m.old (index h)).rec) false (forest m.old (set (slot m.old (index h)).kids j k))) (u + 1) }
{
    let i = h / 2;
    let r = read64(record_at(m, i));
    let c = child_count(m, i);
    let kids = with_child(m, u, h, j, k);
    put_again(m, u, &r, &kids[..c], i)
}

// Node number n of the tree at h, partially sorted; nothing above it is rebuilt. None is refusal 20, there is no such node.
pub fn partially_sorted(m: &mut [u8], u: usize, h: usize, n: usize) -> Option<At>
    requires { Sorting m.old u h }
    ensures { AnswersPartial m.old u m.new h n result }
{
    if n == 0 {
        return replace_node(m, u, h);
    }
    let p = locate(m, u, h, n - 1);
    let j = p.child;
    if j == child_count(m, h / 2) {
        return None;
    }
    let k = child(m, h / 2, j);
    let below = partially_sorted(m, u, k, p.left)?;
    let top = put_child(m, below.used, h, j, below.root);
    Some(top)
}
