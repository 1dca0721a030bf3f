// What withdraw and reweigh do to the rules that a plan keeps.
ghost use Rattle.std.specs.Prelude.{◌≡◌};
ghost use Rattle.plans.specs.Refusals.{edit_answer_of};
ghost use Rattle.plans.specs.Places.{index_of};
ghost use Rattle.rules.specs.Views.{rule_of};
ghost use Rattle.theory.specs.Calls.{element_in, left_by, reweighed_rule, unless_refused, weight_refusal};

use crate::plan::entry::{MAX_WEIGHT, is_near};
use crate::refusal::Refusal;
use rules::FitRule;

// The index of a place, which counts from 1, in a list of this length.
pub(super) fn index_of(place: u8, len: usize) -> Option<usize>
    ensures { result ≡ index_of place len }
{
    let at = usize::from(place).checked_sub(1)?;
    (at < len).then_some(at)
}

// One weight of a rule that is lent is written in place.
pub(super) fn reweigh_element(
    kept: &mut FitRule,
    tally: u8,
    element: u8,
    weight: i32,
) -> Result<(), Refusal>
    ensures answer { edit_answer_of result ≡ unless_refused (weight_refusal (element_in (rule_of kept.old.rule) tally element) weight) tt }
    ensures after { rule_of kept.new.rule ≡ left_by (weight_refusal (element_in (rule_of kept.old.rule) tally element) weight) (rule_of kept.old.rule) (reweighed_rule tally element weight (rule_of kept.old.rule)) }
{
    let Some(tally_at) = index_of(tally, kept.rule.tallies.len()) else {
        return Err(Refusal::NoSuchPlace);
    };
    let found = &mut kept.rule.tallies[tally_at];
    let Some(element_at) = index_of(element, found.elements.len()) else {
        return Err(Refusal::NoSuchPlace);
    };
    if !is_near(MAX_WEIGHT, weight) {
        return Err(Refusal::HeavyWeight);
    }
    found.elements[element_at].weight = weight;
    Ok(())
}
