// The demand on the order check, tied to the code: a function over `check_order` whose contract is the theorem of crate demands.
#![tactic(auto)]

ghost use Rattle.std.specs.Prelude.{◌≡◌, true};
ghost use Rattle.plan_codec.specs.Reading.{reading};
ghost use Rattle.semantics.specs.Check.{check};
ghost use Rattle.call_answers.specs.Answers.{after_reading, checks, passes_in};
ghost use Rattle.demands.specs.CheckedFiles.{Holding, FeedsInOrder};

// Whether a file holds a plan that passes the order check: an equation. If it does, no run of the plan, over rows that keep its declared facts,
// feeds an operator out of order.
pub fn feeds_in_order(plan: &[u8]) -> bool
    ensures { (result ≡ passes_in (after_reading (λ f. checks (check f)) (reading plan.now))) × (result ≡ true → Holding plan.now FeedsInOrder) }
{
    let mut passes = 0;
    let number = sort_placement::check_order(plan, &mut passes);
    number == 0 && passes == 1
}
