// Judging a candidate: the first rule that it breaks, else the lowest proper subset that satisfies the reduct.
#![tactic(auto)]

ghost use Rattle.judging.specs.Answers.{judge_answer_of};
ghost use Rattle.plans.specs.PlanView.{plan_of};
ghost use Rattle.theory.specs.Calls.{judge_answer};
ghost use Rattle.std.specs.Prelude.{◌≡◌};

use banks::Bank;
use plans::plan::Plan;
use plans::refusal::Refusal;
use readings::Reading;
use sets::AtomSet;
use trial::Trial;

mod bodies;
mod reducts;
mod tallies;
mod totals;
mod trial;

/// The most marks that a candidate may have.
const MAX_MARKS: u32 = 20;

/// What is said of a candidate.
#[derive(Clone, Copy, Debug, PartialEq, Eq)]
pub enum Verdict {
    /// The first place, counted from 1, whose rule the candidate does not hold.
    Broken(u8),
    /// The candidate holds every rule; this is the lowest number among its proper subsets that satisfy the reduct.
    Smaller(AtomSet),
    /// The candidate holds every rule, and no proper subset satisfies the reduct.
    Stable,
}

/// The verdict on a candidate, under a reading: exactly that of the definition. It does not allocate.
pub fn judge<B: Bank, R: Reading>(
    plan: &Plan<B>,
    reading: &R,
    candidate: AtomSet,
) -> Result<Verdict, Refusal>
    ensures { judge_answer_of result ≡ judge_answer (B.meaning plan.now.bank) (R.meaning reading.now) (plan_of plan.now) candidate.0 }
{
    if !candidate.is_within(plan.atoms()) {
        return Err(Refusal::UnnamedMark);
    }
    if candidate.0.count_ones() > MAX_MARKS {
        return Err(Refusal::TooManyMarks);
    }
    let trial = Trial {
        bank: plan.bank(),
        reading,
        candidate,
        rules: plan.rules(),
    };
    Ok(trial.verdict())
}
