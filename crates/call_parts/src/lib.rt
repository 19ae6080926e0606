// What the calls on a plan share: why they end, 21's test, the plan written to the output; and the order check.
#![tactic(auto)]

ghost use Rattle.std.specs.Prelude.{◌≡◌, List, ℕ, ◌*◌, ◌≤◌, ◌<◌};
ghost use Rattle.semantics.specs.Check.{check};
ghost use Rattle.walks.specs.Marks.{size_t};
ghost use Rattle.plan_context.specs.View.{tree_in, tree_of};
ghost use Rattle.plan_context.specs.Records.{plan_t};
ghost use Rattle.settling.specs.Reading.{Loaded};
ghost use Rattle.call_answers.specs.Answers.{checks, gives};
ghost use Rattle.call_parts.specs.PartialSorts.{partial_t};
ghost use Rattle.call_parts.specs.declared.Stop.TheVariants.{Refused};
ghost use Rattle.call_parts.specs.Calls.{stopped_as, CalledAs};

use arena::{child, child_count, record_at};
use plan::Refusal;
use plan_context::kept;
use settling::settle_all;

// Why a call ends without an answer: it is refused, or the arena is too small for it.
#[derive(Clone, Copy)]
pub enum Stop {
    Refused(Refusal),
    NoRoom,
}

impl From<Refusal> for Stop {
    ghost from_gives = { λ x s. s ≡ Refused x };

    fn from(x: Refusal) -> Stop {
        Stop::Refused(x)
    }
}

// Whether the tree in slot i has a partial sort.
pub fn has_partial_sort(m: &[u8], u: usize, i: usize) -> bool
    requires { Loaded m.now u × (i < u) }
    ensures { result ≡ partial_t (tree_in m.now i) }
{
    // By the number: kind_of takes what is no kind's number for a partial sort too, and the test is longer by it.
    if record_at(m, i)[0] == 14 {
        return true;
    }
    let n = child_count(m, i);
    for j in 0..n {
        let h = child(m, i, j);
        if has_partial_sort(m, u, h / 2) {
            return true;
        }
    }
    false
}

// The tree at h, of n nodes, written to the output.
pub fn write_out(m: &[u8], u: usize, h: usize, n: usize, out: &mut [u8]) -> Result<bool, Stop>
    requires { Loaded m.now u × (h < 2 * u) × (n ≡ size_t (tree_of m.now h)) × (n ≤ 126) }
    ensures { (short : ℕ) → CalledAs result (gives (plan_t (tree_of m.now h))) out.old out.new short }
{
    arena_writer::write(m, u, h, n, out)?;
    Ok(false)
}

// A walk that stopped has written nothing.
pub fn stopped(s: step_ends::Stop) -> Result<bool, Stop>
    ensures { result ≡ stopped_as s }
{
    match s {
        step_ends::Stop::TooManyNodes => Err(Stop::Refused(Refusal::TooManyNodes)),
        step_ends::Stop::NoRoom => Err(Stop::NoRoom),
    }
}

// The order check of the tree at h: whether it passes.
pub fn check_in(m: &mut [u8], u: usize, h: usize) -> Result<bool, Stop>
    requires { Loaded m.old u × (h < 2 * u) }
    ensures { (out : List ℕ) (short : ℕ) → CalledAs result (checks (check (plan_t (tree_of m.old h)))) out out short }
{
    settle_all(m, u);
    Ok(kept::passes(m, h))
}
