// replace_with_order_preserving_variants.rs: the step of the order-preserving walk. A sort over a path of nodes that could keep their
// input's order is replaced by that path with nodes that keep it, where these give the sort's order.
#![tactic(auto)]

ghost use Rattle.std.specs.Prelude.{◌≡◌, false, [], ◌∷◌, suc, ◌+◌};
ghost use Rattle.plan.specs.Forest.{size};
ghost use Rattle.plan_codec.specs.Decode.{decode, from_bytes};
ghost use Rattle.walks.specs.Marks.{node, size_t, shape};
ghost use Rattle.walks.specs.OrderPreserving as walk;
ghost use Rattle.plan_context.specs.View.{tree_of, forest, Arena, Grown};
ghost use Rattle.plan_updates.specs.Opened.{step_room, Opened};
ghost use Rattle.order_preservation_marks.specs.Marking.{Cut, Carrying};
ghost use Rattle.replace_with_order_preserving_variants.specs.Step.{Sorts, Sorting, accept_one};
ghost use Rattle.walk_settings.specs.Settings.{settings_of};

use arena::{At, child, child_count, read64, record_at};
use met_orders::{meets, normal_form};
use node_properties::{is_sort, keys};
use order_preservation_marks::marking::update_order_preservation_ctx_children_data;
use order_preserving_plans::preserving::plan_with_order_preserving_variants;
use plan_context::handles::{is_marked, set_mark};
use plan_context::kept::{row, summary};
use plan_updates::put_again;
use walk_settings::Settings;

// Whether a sort with the record r over the tree at h takes the variants that preserve order in any case: where existing sorts are
// preferred, or where it is final over unbounded rows.
fn use_order_preserving_variant(m: &[u8], r: &[u8], h: usize, s: Settings) -> bool
    requires { Sorts m.now r.now h }
    ensures { result ≡ walk.use_order_preserving_variant (settings_of s) (from_bytes r.now).keys
        (node (decode r.now) false (forest m.now (h ∷ []))) (tree_of m.now h) }
{
    let x = summary(m, h);
    s.prefer | (x.endless & !meets(row(m, h), keys(r)))
}

// The handles of the children of node i, unmarked.
fn unmarked(m: &[u8], i: usize) -> [usize; 8]
    requires { Arena m.now (i + 1) }
    ensures { Cut m.now i (λ j. false) result }
{
    let n = child_count(m, i);
    let mut kids = [0usize; 8];
    for j in 0..n {
        let k = child(m, i, j);
        kids[j] = set_mark(k, false);
    }
    kids
}

// The tree at h, which makes the sort above it unnecessary, with no mark on its children.
fn accept(m: &mut [u8], u: usize, h: usize) -> At
    requires { Carrying m.old u h }
    ensures { Grown m.old u m.new result (accept_one (tree_of m.old h)) (u + 1) }
{
    let i = h / 2;
    let n = child_count(m, i);
    let kids = unmarked(m, i);
    let r = read64(record_at(m, i));
    let a = put_again(m, u, &r, &kids[..n], i);
    let b = is_marked(h);
    At {
        used: a.used,
        root: set_mark(a.root, b),
    }
}

// A sort with the record r over the tree at h, which is marked. "If the alternate plan makes this sort unnecessary, accept the
// alternate"; otherwise the tree stays as it was, and the slots of the alternative are free again. Its order-breaking variants, which
// the Rust makes then, reach no answer (crate order_breaking_plans).
fn replace_sort(m: &mut [u8], u: usize, r: &[u8], h: usize, i: usize, s: Settings) -> At
    requires { Sorting m.old u r.now h i }
    ensures { Grown m.old u m.new result
        (walk.replace_by (shape (decode r.now)) (settings_of s) (node (decode r.now) false (forest m.old (h ∷ []))))
        (u + size_t (tree_of m.old h) + 1) }
{
    let better = use_order_preserving_variant(m, r, h, s);
    let order = normal_form(row(m, h), keys(r));
    let a = plan_with_order_preserving_variants(
        m,
        u,
        h,
        s.spr | better,
        s.spm | better,
        node_fetches::fetch(r),
    );
    if meets(row(m, a.root), order) {
        return accept(m, a.used, a.root);
    }
    let one = [h];
    put_again(m, u, r, &one, i)
}

// The open node with the record r over the children ks. Slot i holds the node as it was read.
pub fn replace_with_order_preserving_variants(
    m: &mut [u8],
    u: usize,
    r: &[u8],
    ks: &[usize],
    i: usize,
    s: Settings,
) -> At
    requires { Opened m.old u r.now ks.now i }
    ensures { Grown m.old u m.new result
        (walk.replace_with_order_preserving_variants (settings_of s) (node (decode r.now) false (forest m.old ks.now)))
        (u + step_room (suc (size (forest m.old ks.now)))) }
{
    let c = update_order_preservation_ctx_children_data(m, u, ks);
    let kids = c.kids;
    let n = ks.len();
    let h = kids[0];
    if is_sort(r) & is_marked(h) {
        return replace_sort(m, c.used, r, h, i, s);
    }
    put_again(m, c.used, r, &kids[..n], i)
}
