// One call on a plan file, in arenas of any size.
ghost use Rattle.std.specs.Prelude.{◌*◌, ◌≤◌, length};
ghost use Rattle.plan_format.specs.Blocks.{block_count};
ghost use Rattle.plan_arena.specs.ReadFile.{block_slots};
ghost use Rattle.walks.specs.Counted.{pushed};
ghost use Rattle.plan_codec.specs.Reading.{reading};
ghost use Rattle.plan_context.specs.View.{tree_of};
ghost use Rattle.plan_context.specs.Records.{plan_t};
ghost use Rattle.call_answers.specs.Answers.{after_reading, rewrites};
ghost use Rattle.call_parts.specs.Calls.{CalledAs, short_of, push_short, Loads, Memory};
ghost use Rattle.plan_calls.specs.Results.{result_of};

use crate::Call;
use call_parts::{Stop, check_in, write_out};
use partial_sort_calls::sort_partially;
use push_calls::push_in;
use walk_calls::walk_in;

// The call on the plan that was read, the tree at h.
fn perform(
    k: Call,
    m: &mut [u8],
    u: usize,
    h: usize,
    out: &mut [u8],
    c: &mut [u8],
) -> Result<bool, Stop>
    requires { Loads m.old u h c.old }
    ensures { CalledAs result (result_of k (plan_t (tree_of m.old h))) out.old out.new (short_of m.old) }
{
    match k {
        Call::CheckOrder => check_in(m, u, h),
        Call::CopyPlan => write_out(m, u, h, u, out),
        Call::TransformUp(w) => walk_in(w, m, u, h, out, c),
        Call::PartialSort(n) => sort_partially(m, u, h, n, out),
    }
}

// The call on the plan file, in the arena m with the scratch c.
pub fn call_in(
    k: Call,
    plan: &[u8],
    out: &mut [u8],
    m: &mut [u8],
    c: &mut [u8],
) -> Result<bool, Stop>
    requires { Memory plan.now m.old c.old }
    ensures { CalledAs result (after_reading (result_of k) (reading plan.now)) out.old out.new (short_of m.old) }
{
    let a = plan_arena::read(plan, m)?;
    perform(k, m, a.used, a.root, out, c)
}

// Pushing on the plan file, in the arena m; the plan that it makes stands in the arena b.
pub fn push_plan(plan: &[u8], out: &mut [u8], m: &mut [u8], b: &mut [u8]) -> Result<bool, Stop>
    requires { block_slots * block_count plan.now ≤ length m.old }
    ensures { CalledAs result (rewrites pushed plan.now) out.old out.new (push_short b.old) }
{
    let read = plan_arena::read(plan, m)?;
    push_in(m, read.used, read.root, out, b)
}
