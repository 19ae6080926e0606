// The step of pushing at a node: refusals 25 and 23, and the number of nodes after it.
#![tactic(auto)]

ghost use Rattle.std.specs.Prelude.{◌≡◌, ◌&&◌, ◌+◌, ◌≤◌, ◌<◌, length};
ghost use Rattle.plan_codec.specs.Decode.{decode};
ghost use Rattle.record_fields.specs.Proper.{Proper};
ghost use Rattle.semantics.specs.Facts as sem;
ghost use Rattle.key_lists.specs.Keys.{order_of, Real};
ghost use Rattle.asked_facts.specs.Asked.{told, FactRow};
ghost use Rattle.walks.specs.Counted.{one};
ghost use Rattle.walks.specs.Utils.{is_sort};
ghost use Rattle.sort_pushdown.specs.Decisions.{tops_of};
ghost use Rattle.push_steps.specs.Steps.{some, after_by, step_by};

use asked_facts::is_ordered;
use key_lists::Keys;
use node_properties::is_sort;
use plan::Refusal;
use sort_pushdown::{Decision, NewNodes};

// One node, unless there is no order.
fn one_of(o: Option<Keys>) -> usize
    requires { Real o }
    ensures { result ≡ some (order_of o) }
{
    let Some(_) = o else {
        return 0;
    };
    1
}

// How many new nodes.
pub fn new_count(t: NewNodes) -> usize
    requires { Real t.merge × Real t.sort }
    ensures { (result ≡ length (tops_of t)) × (result ≤ 2) }
{
    let a = t.merge;
    let b = t.sort;
    one_of(a) + one_of(b)
}

// The nodes of the plan after the decision, count before it.
fn nodes_after(d: Decision, count: usize) -> usize
    requires { Real d.tops.merge × Real d.tops.sort × (1 ≤ count) × (count ≤ 1000) }
    ensures { (result ≡ after_by d count) × (result ≤ 1002) }
{
    let tops = d.tops;
    let n = count + new_count(tops);
    if d.gone {
        return n - 1;
    }
    n
}

// A sort whose keys are all constant.
fn constant_sort(r: &[u8], own: &[u8]) -> bool
    requires { Proper r.now × FactRow own.now }
    ensures { result ≡ (is_sort (decode r.now) && sem.is_nil (sem.known_order (told own.now))) }
{
    is_sort(r) & !is_ordered(own)
}

fn one_if(b: bool) -> usize
    ensures { (result ≡ one b) × (result ≤ 1) }
{
    if b { 1 } else { 0 }
}

// How many nodes the plan has after the step, or a refusal: 25 before 23.
pub fn step_at(r: &[u8], own: &[u8], d: Decision, count: usize) -> Result<usize, Refusal>
    requires { Proper r.now × FactRow own.now × Real d.tops.merge × Real d.tops.sort × (1 ≤ count) × (count ≤ 1000) }
    ensures { result ≡ step_by (is_sort (decode r.now) && sem.is_nil (sem.known_order (told own.now))) d.quiet d.peak
        (after_by d count) }
{
    if constant_sort(r, own) {
        return Err(Refusal::ConstantSort);
    }
    let after = nodes_after(d, count);
    if !d.quiet & (126 < after + one_if(d.peak)) {
        return Err(Refusal::TooManyNodes);
    }
    Ok(after)
}
