// The calls, on numbers and byte slices; crate sort_placement_c exports them to C. Each answers the number of its refusal, or 0; a refusal leaves what was lent alone, and bytes past the file
// that is written stay.
#![tactic(auto)]

ghost use Rattle.std.specs.Prelude.{◌≡◌};
ghost use Rattle.plan.specs.Numbers.{number_of};
ghost use Rattle.plan_format.specs.Reading.{refusal_of};
ghost use Rattle.plan_codec.specs.Reading.{reading};
ghost use Rattle.walks.specs.Counted.{answered, ensured, parallelized, partially_sorted, preserved, pushed};
ghost use Rattle.step_answers.specs.Answers.{returned, output_after};
ghost use Rattle.call_answers.specs.Answers.{check_answer, settings_in, rewrites, refusal_in, output_in};

use call_memory::{call, push};
use plan_calls::Call;
use transform_up::Walk;
use walk_settings::settings_in;

// In `passes` 1 where the plan passes the order check, 0 where it doesn't.
pub fn check_order(plan: &[u8], passes: &mut u32) -> u32
    ensures { (result ≡ number_of (refusal_of plan.now)) × (passes.new ≡ check_answer (reading plan.now) passes.old) }
{
    let mut none = [0u8; 1];
    let a = call(Call::CheckOrder, plan, &mut none);
    if a.number == 0 {
        *passes = a.passes as u32;
    }
    a.number
}

// A plan is read, and written to the output: the same bytes, since a plan has one file. For drivers that test and time both.
pub fn copy_plan(plan: &[u8], out: &mut [u8]) -> u32
    ensures { (result ≡ number_of (refusal_in (rewrites answered plan.now) out.old))
        × (out.new ≡ output_in (rewrites answered plan.now) out.old) }
{
    call(Call::CopyPlan, plan, out).number
}

// The ensuring walk: sorts put where an order is wanted and not met, and taken away where nothing needs them.
pub fn ensure_sorting(plan: &[u8], out: &mut [u8]) -> u32
    ensures { (result ≡ number_of (refusal_in (rewrites ensured plan.now) out.old))
        × (out.new ≡ output_in (rewrites ensured plan.now) out.old) }
{
    call(Call::TransformUp(Walk::Ensure), plan, out).number
}

// The parallelizing walk: sorts over coalesced streams made sorts of each stream under a merge.
pub fn parallelize_sorts(plan: &[u8], out: &mut [u8]) -> u32
    ensures { (result ≡ number_of (refusal_in (rewrites parallelized plan.now) out.old))
        × (out.new ≡ output_in (rewrites parallelized plan.now) out.old) }
{
    call(Call::TransformUp(Walk::Parallelize), plan, out).number
}

// The order-preserving walk: sorts replaced by nodes that keep their input's order. A setting is off where it is zero.
pub fn replace_with_order_preserving_variants(
    plan: &[u8],
    spr_better: u8,
    spm_better: u8,
    prefer_existing: u8,
    out: &mut [u8],
) -> u32
    ensures { (result ≡ number_of (refusal_in (rewrites (preserved (settings_in spr_better spm_better prefer_existing)) plan.now)
        out.old)) × (out.new ≡ output_in (rewrites (preserved (settings_in spr_better spm_better prefer_existing))
        plan.now) out.old) }
{
    let s = settings_in(spr_better, spm_better, prefer_existing);
    call(Call::TransformUp(Walk::Preserve(s)), plan, out).number
}

// The walk that pushes sorts down: parents before children.
pub fn pushdown_sorts(plan: &[u8], out: &mut [u8]) -> u32
    ensures { (result ≡ number_of (refusal_in (rewrites pushed plan.now) out.old))
        × (out.new ≡ output_in (rewrites pushed plan.now) out.old) }
{
    push(plan, out).number
}

// Partial sorting of the node with the number `node`: nothing else changes.
pub fn replace_with_partial_sort(plan: &[u8], node: u32, out: &mut [u8]) -> u32
    ensures { (result ≡ number_of (refusal_in (rewrites (partially_sorted node) plan.now) out.old))
        × (out.new ≡ output_in (rewrites (partially_sorted node) plan.now) out.old) }
{
    call(Call::PartialSort(node), plan, out).number
}

// A dry run: rows stepped through the plan, by the caller's list of bytes. What the root delivers is written; a plan with a join or an aggregate isn't stepped.
pub fn dry_run(plan: &[u8], rows: &[u8], choices: &[u8], out: &mut [u8]) -> u32
    ensures { (result ≡ returned plan.now rows.now choices.now out.old)
        × (out.new ≡ output_after plan.now rows.now choices.now out.old) }
{
    dry_runs::dry_run(plan, rows, choices, out)
}
