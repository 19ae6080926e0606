// Partial sorting as a call: on the plan that was read, and its answer to the output.
#![tactic(auto)]

ghost use Rattle.std.specs.Prelude.{◌≤◌, ◌<◌};
ghost use Rattle.plan_context.specs.View.{tree_of};
ghost use Rattle.plan_context.specs.Records.{plan_t};
ghost use Rattle.call_parts.specs.Calls.{CalledAs, short_of, Formed};
ghost use Rattle.walks.specs.Counted.{partially_sorted};
ghost use Rattle.call_answers.specs.Answers.{rewritten};

use arena::SLOT;
use call_parts::{Stop, write_out};
use partial_sort_by_number::partially_sorted;
use plan::Refusal;
use plan_context::kept;
use settling::settle_all;

// Node number n of the tree at h partially sorted, and the answer to the output.
pub fn sort_partially(
    m: &mut [u8],
    u: usize,
    h: usize,
    n: u32,
    out: &mut [u8],
) -> Result<bool, Stop>
    requires { Formed m.old u h × (u ≤ 126) }
    ensures { CalledAs result (rewritten (partially_sorted n (plan_t (tree_of m.old h)))) out.old out.new
        (short_of m.old) }
{
    settle_all(m, u);
    let k = kept::nodes(m, h);
    if m.len() / SLOT < u + k {
        return Err(Stop::NoRoom);
    }
    match partially_sorted(m, u, h, n as usize) {
        None => Err(Stop::Refused(Refusal::NoSuchNode)),
        Some(a) => write_out(m, a.used, a.root, k, out),
    }
}
