// The end of a step: the nodes of the whole plan are counted (refusal 23), and what only steps needed is given back. And how a walk ends or stops.
#![tactic(auto)]

ghost use Rattle.std.specs.Prelude.{◌≡◌, ◌+◌};
ghost use Rattle.plan_context.specs.View.{tree_of};
ghost use Rattle.step_ends.specs.Tidying.{enough, Tidies, Tidied};
ghost use Rattle.step_ends.specs.Ending.{Ending, Ended};

use arena::{At, SLOT};
use plan_context::kept::nodes;
use plan_copies::copy;

// Why a walk stops: refusal 23, or the arena is too small for it.
#[derive(Clone, Copy)]
pub enum Stop {
    TooManyNodes,
    NoRoom,
}

// What the walk of a subtree leaves: the slots used, the handle of the new tree, and the nodes of the whole plan.
#[derive(Clone, Copy)]
pub struct Walked {
    pub used: usize,
    pub root: usize,
    pub total: usize,
}

// A subtree that used more slots than this is always copied together after its walk.
pub const TIDY_FROM: usize = 382;

// So many slots are enough for every walk of every plan.
pub const FULL: usize = 772;

// Whether a walk that may use so many slots has them: either no tidying comes, or there is room for all of it.
pub fn has_room(slots: usize, need: usize) -> bool
    ensures { result ≡ enough slots need }
{
    (need <= slots) & ((need <= TIDY_FROM) | (FULL <= slots))
}

// The tree of s, of k nodes, copied to the slots from v on where many are used, of a smaller arena more than a third if there is room to copy it: what only
// the steps needed goes. Everything from v on is of this subtree, so no live handle moves.
fn tidied(m: &mut [u8], v: usize, s: At, k: usize, c: &mut [u8]) -> At
    requires { Tidies m.old v s k c.old }
    ensures { Tidied m.old v m.new result (tree_of m.old s.root) }
{
    if s.used <= TIDY_FROM {
        let slots = m.len() / SLOT;
        if (s.used <= slots / 3) | (FULL <= slots) | (slots < v + k) | (c.len() / SLOT < k) {
            return s;
        }
    }
    let x = copy(m, s.used, c, 0, s.root);
    copy(c, x.used, m, v, x.root)
}

// The step at a node has left the tree of s; before it that tree had so many nodes, the whole plan n. Slots from v on are of this subtree.
pub fn end_step(
    m: &mut [u8],
    v: usize,
    s: At,
    n: usize,
    before: usize,
    c: &mut [u8],
) -> Result<Walked, Stop>
    requires { Ending m.old v s n before c.old }
    ensures { Ended result m.old v s n before m.new }
{
    let k = nodes(m, s.root);
    let total = n + k - before;
    if 126 < total {
        return Err(Stop::TooManyNodes);
    }
    let z = tidied(m, v, s, k, c);
    Ok(Walked {
        used: z.used,
        root: z.root,
        total: total,
    })
}
