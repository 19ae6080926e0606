// enforce_sorting/mod.rs, parallelizing: coalesces below a sort are taken out, so that each stream is sorted by itself and a merge
// gathers them.
#![tactic(auto)]

pub mod cascades;

ghost use Rattle.std.specs.Prelude.{false, suc, ◌+◌, ◌<◌};
ghost use Rattle.plan.specs.Forest.{size};
ghost use Rattle.plan_codec.specs.Decode.{decode};
ghost use Rattle.walks.specs.Marks.{node};
ghost use Rattle.walks.specs.ParallelizeSorts.{parallelize_sorts};
ghost use Rattle.plan_context.specs.View.{forest, Grown, Puts};
ghost use Rattle.plan_updates.specs.Opened.{Opened, step_room};

use crate::cascades::{cascade, coalesce_again, sorts_one_stream};
use arena::At;
use bottleneck_removal::marks::{first_connected, update_coalesce_ctx_children};
use key_lists::Keys;
use node_properties::is_coalesce_partitions;
use plan_context::handles::set_mark;
use plan_updates::put_again;

// The keys and the fetch of a sort or a merge.
#[derive(Clone, Copy)]
pub struct SortExprs {
    pub keys: Keys,
    pub fetch: Option<u32>,
}

// The node with the record r over the children ks, with the mark b. Slot i holds it as it was.
fn stay(m: &mut [u8], u: usize, r: &[u8], ks: &[usize], i: usize, b: bool) -> At
    requires { Puts m.old u r.now ks.now × (i < u) }
    ensures { Grown m.old u m.new result (node (decode r.now) b (forest m.old ks.now)) (u + 1) }
{
    let a = put_again(m, u, r, ks, i);
    At {
        used: a.used,
        root: set_mark(a.root, b),
    }
}

// The step at an open node. If the first child has no connection, it only gets its mark.
pub fn parallelize_sorts(m: &mut [u8], u: usize, r: &[u8], ks: &[usize], i: usize) -> At
    requires { Opened m.old u r.now ks.now i }
    ensures { Grown m.old u m.new result
        (parallelize_sorts (node (decode r.now) false (forest m.old ks.now)))
        (u + step_room (suc (size (forest m.old ks.now)))) }
{
    let b = update_coalesce_ctx_children(r, ks);
    if !first_connected(ks) {
        return stay(m, u, r, ks, i, b);
    }
    let h = ks[0];
    if sorts_one_stream(m, r, h) {
        return cascade(m, u, r, h);
    }
    if is_coalesce_partitions(r) {
        return coalesce_again(m, u, r, h);
    }
    stay(m, u, r, ks, i, b)
}
