// The call that a record makes on a plan.
ghost use Rattle.files.specs.Plays.{after_call, called, reading_of};
ghost use Rattle.files.specs.Turns.{said_in};
ghost use Rattle.judging.specs.Answers.{judge_answer_of};
ghost use Rattle.plans.specs.PlanView.{plan_of};
ghost use Rattle.records.specs.Records.{record_of};
ghost use Rattle.std.specs.Prelude.{◌≡◌};
ghost use Rattle.theory.specs.Calls.{judge_answer};

use crate::line::Answer;
use banks::Bank;
use judging::{Verdict, judge};
use plans::plan::Plan;
use plans::refusal::{Refusal, Refused};
use readings::{Ferraris, Flp};
use records::letter::ReadingName;
use records::record::Record;
use sets::AtomSet;

// The two readings are of two types: a `dyn Reading` would be chosen by the same match.
fn judged<B: Bank>(
    plan: &Plan<B>,
    reading: ReadingName,
    candidate: AtomSet,
) -> Result<Verdict, Refusal>
    ensures { judge_answer_of result ≡ judge_answer (B.meaning plan.now.bank) (reading_of reading) (plan_of plan.now) candidate.0 }
{
    match reading {
        ReadingName::Flp => judge(plan, &Flp, candidate),
        ReadingName::Ferraris => judge(plan, &Ferraris, candidate),
    }
}

/// The record's call on the plan. The kinds of records are closed, and each has other fields, so this is a match.
pub(crate) fn called<B: Bank>(plan: &mut Plan<B>, sent: Record) -> Result<Answer, Refused>
    ensures said { said_in result ≡ called (B.meaning plan.old.bank) (plan_of plan.old) (record_of sent.entry) }
    ensures after { plan_of plan.new ≡ after_call (B.meaning plan.old.bank) (plan_of plan.old) (record_of sent.entry) }
    ensures bank { plan.new.bank ≡ plan.old.bank }
{
    match sent {
        Record::Name(bytes) => Ok(Answer::Atom(plan.name(bytes)?)),
        Record::Rule(rule) => Ok(Answer::Entered(plan.enter(rule)?)),
        Record::Judge(reading, candidate) => Ok(Answer::Judged(judged(plan, reading, candidate)?)),
    }
}
