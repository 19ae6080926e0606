// The walk: a step at the node, then its children from left to right, then the node over them.
ghost use Rattle.arena.specs.Arena.{index};
ghost use Rattle.plan_context.specs.View.{tree_in, tree_of};
ghost use Rattle.plan_context.specs.Records.{plan_t};
ghost use Rattle.sort_pushdown.specs.Decisions.{visit_of};
ghost use Rattle.pushdown_sorts.specs.Walk.{Pushes, Ends, Rooted, AnswersPush};

use crate::Walked;
use arena::{child, child_count, kept_at, record_at};
use plan::Refusal;
use plan_context::kept::{fetch_at, nodes};
use push_steps::step_at;
use push_visits::carrying::carry_out;
use push_visits::visiting::decide_at;
use sort_pushdown::Visit;
use sort_pushdown::children::child_visit;

// The tree at h of the arena in a, visited with visit in a plan of count nodes, behind the v nodes of b; or refusal 23 or 25.
pub fn push_at(
    a: &[u8],
    ua: usize,
    h: usize,
    b: &mut [u8],
    v: usize,
    visit: Visit,
    count: usize,
) -> Result<Walked, Refusal>
    requires { Pushes a.now ua h b.old v visit count }
    ensures { Ends (visit_of visit) count (tree_in a.now (index h)) b.old v b.new result }
{
    let i = h / 2;
    let d = decide_at(a, ua, h, visit);
    let after = step_at(record_at(a, i), kept_at(a, i), d, count)?;
    let n = child_count(a, i);
    let mut kids = [0usize; 8];
    let mut w = v;
    let mut m = after;
    for j in 0..n {
        let k = child(a, i, j);
        let below = child_visit(d, j, fetch_at(a, k));
        let x = push_at(a, ua, k, b, w, below, m)?;
        w = x.used;
        kids[j] = x.root;
        m = x.count;
    }
    let z = carry_out(a, ua, i, b, w, d, &kids[..n]);
    let done = Walked {
        used: z.used,
        root: z.root,
        count: m,
    };
    Ok(done)
}

// The plan at h, pushed: from the first slot of b on.
pub fn pushdown_sorts(a: &[u8], ua: usize, h: usize, b: &mut [u8]) -> Result<Walked, Refusal>
    requires { Rooted a.now ua h b.old }
    ensures { AnswersPush (plan_t (tree_of a.now h)) b.new result }
{
    let visit = Visit::at_root();
    let count = nodes(a, h);
    push_at(a, ua, h, b, 0, visit, count)
}
