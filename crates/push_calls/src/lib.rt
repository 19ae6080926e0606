// Pushing as a call: on the plan that was read, and its answer to the output.
#![tactic(auto)]

ghost use Rattle.std.specs.Prelude.{ℕ, ◌*◌, ◌≤◌, ◌<◌, length};
ghost use Rattle.plan_context.specs.View.{tree_of};
ghost use Rattle.plan_context.specs.Records.{plan_t};
ghost use Rattle.call_parts.specs.Calls.{CalledAs, push_short, Formed, Pushable};
ghost use Rattle.arena.specs.Arena.{slot_size};
ghost use Rattle.walks.specs.Counted.{pushed};
ghost use Rattle.call_answers.specs.Answers.{rewritten};

use arena::SLOT;
use call_parts::{Stop, has_partial_sort, write_out};
use plan::Refusal;
use plan_context::kept;
use pushdown_sorts::walking::push_at;
use settling::settle_all;
use sort_pushdown::Visit;

// The tree at h of the arena in m, pushed into the arena in b, and its answer to the output. It has n nodes.
fn push_to(
    m: &[u8],
    u: usize,
    h: usize,
    n: usize,
    out: &mut [u8],
    b: &mut [u8],
) -> Result<bool, Stop>
    requires { Pushable m.now u h n × (3 * n * slot_size ≤ length b.old) }
    ensures { (short : ℕ) → CalledAs result (rewritten (pushed (plan_t (tree_of m.now h)))) out.old out.new short }
{
    let x = push_at(m, u, h, b, 0, Visit::at_root(), n)?;
    write_out(b, x.used, x.root, kept::nodes(b, x.root), out)
}

// The same with the arena b, where it has three slots for each node.
pub fn push_in(m: &mut [u8], u: usize, h: usize, out: &mut [u8], b: &mut [u8]) -> Result<bool, Stop>
    requires { Formed m.old u h }
    ensures { CalledAs result (rewritten (pushed (plan_t (tree_of m.old h)))) out.old out.new (push_short b.old) }
{
    settle_all(m, u);
    if has_partial_sort(m, u, h / 2) {
        return Err(Stop::Refused(Refusal::HasPartialSort));
    }
    let n = kept::nodes(m, h);
    if b.len() / SLOT < 3 * n {
        return Err(Stop::NoRoom);
    }
    push_to(m, u, h, n, out, b)
}
