// What a visit of the node at h decides, read from the arena.
ghost use Rattle.std.specs.Prelude.{◌≡◌, ℕ, ◌*◌, ◌<◌, ◌≤◌};
ghost use Rattle.arena.specs.Arena.{index};
ghost use Rattle.walks.specs.PushdownSorts.{pushdown_sorts_helper};
ghost use Rattle.plan_context.specs.View.{tree_of, Arena, Here};
ghost use Rattle.sort_pushdown.specs.Decisions.{Decides, visit_of};
ghost use Rattle.push_visits.specs.Carried.{op_at, plan_at, RowOf, Visits};

use arena::{child, child_count, kept_at, record_at};
use plan_context::kept::fetch_at;
use sort_pushdown::deciding::pushdown_sorts_helper;
use sort_pushdown::{Decision, Visit};

// The facts of child j of node i; where there is none, its own.
pub fn child_row(a: &[u8], ua: usize, i: usize, j: usize) -> &[u8]
    requires { Arena a.now ua × (i < ua) }
    ensures { RowOf a.now i j result.now }
{
    if j < child_count(a, i) {
        let k = child(a, i, j);
        return kept_at(a, k / 2);
    }
    kept_at(a, i)
}

pub fn decide_at(a: &[u8], ua: usize, h: usize, v: Visit) -> Decision
    requires { Visits a.now ua h v }
    ensures { Decides (op_at a.now h) (plan_at a.now h)
        (pushdown_sorts_helper (visit_of v) (op_at a.now h) (plan_at a.now h)) result }
{
    let i = h / 2;
    let first = child_row(a, ua, i, 0);
    let second = child_row(a, ua, i, 1);
    pushdown_sorts_helper(
        v,
        record_at(a, i),
        kept_at(a, i),
        first,
        second,
        fetch_at(a, h),
    )
}
