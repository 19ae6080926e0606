// The C exports: each call of crate sort_placement under its own name, with the same clauses. Each answers the number of its refusal, or 0; a refusal
// leaves what was lent alone, and bytes past the file that is written stay.
#![tactic(auto)]

ghost use Rattle.std.specs.Prelude.{◌≡◌};
ghost use Rattle.plan.specs.Numbers.{number_of};
ghost use Rattle.plan_format.specs.Reading.{refusal_of};
ghost use Rattle.plan_codec.specs.Reading.{reading};
ghost use Rattle.walks.specs.Counted.{answered, ensured, parallelized, partially_sorted, preserved, pushed};
ghost use Rattle.step_answers.specs.Answers.{returned, output_after};
ghost use Rattle.call_answers.specs.Answers.{check_answer, settings_in, rewrites, refusal_in, output_in};

// In `passes` 1 where the plan passes the order check, 0 where it doesn't.
#[unsafe(no_mangle)]
pub extern "C" fn check_order(plan: &[u8], passes: &mut u32) -> u32
    ensures { (result ≡ number_of (refusal_of plan.now)) × (passes.new ≡ check_answer (reading plan.now) passes.old) }
{
    sort_placement::check_order(plan, passes)
}

// A plan is read, and written to the output: the same bytes, since a plan has one file. For drivers that test and time both.
#[unsafe(no_mangle)]
pub extern "C" fn copy_plan(plan: &[u8], out: &mut [u8]) -> u32
    ensures { (result ≡ number_of (refusal_in (rewrites answered plan.now) out.old))
        × (out.new ≡ output_in (rewrites answered plan.now) out.old) }
{
    sort_placement::copy_plan(plan, out)
}

// The ensuring walk: sorts put where an order is wanted and not met, and taken away where nothing needs them.
#[unsafe(no_mangle)]
pub extern "C" fn ensure_sorting(plan: &[u8], out: &mut [u8]) -> u32
    ensures { (result ≡ number_of (refusal_in (rewrites ensured plan.now) out.old))
        × (out.new ≡ output_in (rewrites ensured plan.now) out.old) }
{
    sort_placement::ensure_sorting(plan, out)
}

// The parallelizing walk: sorts over coalesced streams made sorts of each stream under a merge.
#[unsafe(no_mangle)]
pub extern "C" fn parallelize_sorts(plan: &[u8], out: &mut [u8]) -> u32
    ensures { (result ≡ number_of (refusal_in (rewrites parallelized plan.now) out.old))
        × (out.new ≡ output_in (rewrites parallelized plan.now) out.old) }
{
    sort_placement::parallelize_sorts(plan, out)
}

// The order-preserving walk: sorts replaced by nodes that keep their input's order. A setting is off where it is zero.
#[unsafe(no_mangle)]
pub extern "C" fn replace_with_order_preserving_variants(
    plan: &[u8],
    spr_better: u8,
    spm_better: u8,
    prefer_existing: u8,
    out: &mut [u8],
) -> u32
    ensures { (result ≡ number_of (refusal_in (rewrites (preserved (settings_in spr_better spm_better prefer_existing)) plan.now)
        out.old)) × (out.new ≡ output_in (rewrites (preserved (settings_in spr_better spm_better prefer_existing))
        plan.now) out.old) }
{
    sort_placement::replace_with_order_preserving_variants(
        plan,
        spr_better,
        spm_better,
        prefer_existing,
        out,
    )
}

// The walk that pushes sorts down: parents before children.
#[unsafe(no_mangle)]
pub extern "C" fn pushdown_sorts(plan: &[u8], out: &mut [u8]) -> u32
    ensures { (result ≡ number_of (refusal_in (rewrites pushed plan.now) out.old))
        × (out.new ≡ output_in (rewrites pushed plan.now) out.old) }
{
    sort_placement::pushdown_sorts(plan, out)
}

// Partial sorting of the node with the number `node`: nothing else changes.
#[unsafe(no_mangle)]
pub extern "C" fn replace_with_partial_sort(plan: &[u8], node: u32, out: &mut [u8]) -> u32
    ensures { (result ≡ number_of (refusal_in (rewrites (partially_sorted node) plan.now) out.old))
        × (out.new ≡ output_in (rewrites (partially_sorted node) plan.now) out.old) }
{
    sort_placement::replace_with_partial_sort(plan, node, out)
}

// A dry run: rows stepped through the plan, by the caller's list of bytes. What the root delivers is written; a plan with a join or an aggregate isn't stepped.
#[unsafe(no_mangle)]
pub extern "C" fn dry_run(plan: &[u8], rows: &[u8], choices: &[u8], out: &mut [u8]) -> u32
    ensures { (result ≡ returned plan.now rows.now choices.now out.old)
        × (out.new ≡ output_after plan.now rows.now choices.now out.old) }
{
    sort_placement::dry_run(plan, rows, choices, out)
}
