// The walks that go children before parents: one frame for all of them. "Children before parents, each node once": a walk calls itself on each child's
// subtree, left to right; then one step; then the nodes of the whole plan are counted.
#![tactic(auto)]

ghost use Rattle.std.specs.Prelude.{false, suc, ◌+◌};
ghost use Rattle.plan.specs.Forest.{size};
ghost use Rattle.plan_codec.specs.Decode.{decode};
ghost use Rattle.walks.specs.Marks.{node, rebuild};
ghost use Rattle.arena.specs.Arena.{slot};
ghost use Rattle.plan_context.specs.View.{forest, Grown};
ghost use Rattle.plan_updates.specs.Opened.{Opened, step_room};
ghost use Rattle.transform_up.specs.Walking.{step_of};
ghost use Rattle.transform_up.specs.Finishing.{Finish, Finished};
ghost use Rattle.transform_up.specs.Frame.{Walkable, Outcome};

use arena::{At, SLOT, child, child_count, read64, record_at};
use ensure_sorting::ensure_sorting;
use parallelize_sorts::parallelize_sorts;
use plan_context::kept::nodes;
use plan_updates::rebuilt;
use replace_with_order_preserving_variants::replace_with_order_preserving_variants;
use step_ends::{Stop, Walked, end_step, has_room};
use walk_settings::Settings;

// Which walk it is.
#[derive(Clone, Copy)]
pub enum Walk {
    Ensure,
    Parallelize,
    Preserve(Settings),
}

// The step at one node: the record r over the children ks. Slot i holds the node as it was read.
fn step(w: Walk, m: &mut [u8], u: usize, r: &[u8], ks: &[usize], i: usize) -> At
    requires { Opened m.old u r.now ks.now i }
    ensures { Grown m.old u m.new result
        (step_of w (node (decode r.now) false (forest m.old ks.now)))
        (u + step_room (suc (size (forest m.old ks.now)))) }
{
    match w {
        Walk::Ensure => ensure_sorting(m, u, r, ks, i),
        Walk::Parallelize => parallelize_sorts(m, u, r, ks, i),
        Walk::Preserve(s) => replace_with_order_preserving_variants(m, u, r, ks, i, s),
    }
}

// The end of one node's walk: slot i's node, rebuilt over its walked children, is stepped and counted. It has so many nodes before its step,
// the whole plan n.
fn finish(
    w: Walk,
    m: &mut [u8],
    v: usize,
    u: usize,
    ks: &[usize],
    i: usize,
    n: usize,
    before: usize,
    c: &mut [u8],
) -> Result<Walked, Stop>
    requires { Finish m.old v u ks.now i n before c.old }
    ensures { Finished result w (rebuild (decode (slot m.old i).rec) false (forest m.old ks.now)) n m.old v
        m.new }
{
    if !has_room(m.len() / SLOT, u + 2 * before + 10) {
        return Err(Stop::NoRoom);
    }
    let r = read64(record_at(m, i));
    let x = rebuilt(m, &r, ks);
    let s = step(w, m, u, &x, ks, i);
    end_step(m, v, s, n, before, c)
}

// The walk of slot i's tree, in an arena with v nodes and a plan of n. The new tree stands behind them or shares them; c is lent.
pub fn transform_up(
    w: Walk,
    m: &mut [u8],
    v: usize,
    i: usize,
    n: usize,
    c: &mut [u8],
) -> Result<Walked, Stop>
    requires { Walkable m.old v i n c.old }
    ensures { Outcome result w m.old v i n m.new }
{
    let count = child_count(m, i);
    let was = nodes(m, 2 * i);
    let mut kids = [0usize; 8];
    let mut u = v;
    let mut k = n;
    for j in 0..count {
        let h = child(m, i, j);
        let walked = transform_up(w, m, u, h / 2, k, c)?;
        u = walked.used;
        k = walked.total;
        kids[j] = walked.root;
    }
    finish(w, m, v, u, &kids[..count], i, k, k + was - n, c)
}
