// A tree copied from one arena into another, with its marks and all that is kept of it: what it does not reach stays behind.
#![tactic(auto)]

ghost use Rattle.std.specs.Prelude.{◌+◌};
ghost use Rattle.walks.specs.Marks.{size_t};
ghost use Rattle.plan_context.specs.View.{tree_of, Grown};
ghost use Rattle.plan_copies.specs.Copy.{Copies};

use arena::{At, child, child_count, kept_at, record_at};
use plan_updates::put_known;

// The tree at h of the arena in a, behind the v nodes of b.
pub fn copy(a: &[u8], ua: usize, b: &mut [u8], v: usize, h: usize) -> At
    requires { Copies a.now ua h b.old v }
    ensures { Grown b.old v b.new result (tree_of a.now h) (v + size_t (tree_of a.now h)) }
{
    let i = h / 2;
    let n = child_count(a, i);
    let mut kids = [0usize; 8];
    let mut w = v;
    for j in 0..n {
        let k = child(a, i, j);
        let r = copy(a, ua, b, w, k);
        w = r.used;
        kids[j] = r.root;
    }
    put_known(b, w, record_at(a, i), &kids[..n], kept_at(a, i));
    At {
        used: w + 1,
        root: 2 * w + h % 2,
    }
}
