// The walks from the leaves up as calls: on the plan that was read, and its answer to the output.
#![tactic(auto)]

ghost use Rattle.plan_context.specs.View.{tree_of};
ghost use Rattle.plan_context.specs.Records.{plan_t};
ghost use Rattle.call_parts.specs.Calls.{CalledAs, short_of, Loads};
ghost use Rattle.walk_calls.specs.Walking.{walk_result};

use call_parts::{Stop, has_partial_sort, stopped, write_out};
use plan::Refusal;
use plan_context::kept;
use settling::settle_all;
use transform_up::{Walk, transform_up};

// The walk of the tree at h, and its answer to the output.
pub fn walk_in(
    w: Walk,
    m: &mut [u8],
    u: usize,
    h: usize,
    out: &mut [u8],
    c: &mut [u8],
) -> Result<bool, Stop>
    requires { Loads m.old u h c.old }
    ensures { CalledAs result (walk_result w (plan_t (tree_of m.old h))) out.old out.new
        (short_of m.old) }
{
    settle_all(m, u);
    if has_partial_sort(m, u, h / 2) {
        return Err(Stop::Refused(Refusal::HasPartialSort));
    }
    let n = kept::nodes(m, h);
    match transform_up(w, m, u, h / 2, n, c) {
        Ok(x) => write_out(m, x.used, x.root, x.total, out),
        Err(s) => stopped(s),
    }
}
