// The tests that enter makes of a rule, in their order.
ghost use Rattle.std.specs.Prelude.{◌≡◌, ℕ, ◌<◌, List, [], ◌∷◌, length, vec_len, Some, None, MatchResult};
ghost use Rattle.plans.specs.PlanView.{plan_of};
ghost use Rattle.plans.specs.Refusals.{element_place, refusal_in, refusal_of, refused_of, tally_place};
ghost use Rattle.plans.specs.Tests.{Gives};
ghost use Rattle.rules.specs.Views.{element_of, rule_of, tally_of};
ghost use Rattle.theory.specs.Calls.{Refused as Said, Test, at_most_from_zero, element_tests, enter_refusal, field_tests, first_applying, refuse_if, rule_tests, tally_tests, tests_from};

use crate::plan::{MAX_RULES, Plan};
use crate::refusal::{Refusal, Refused, Tested};
use banks::Bank;
use rules::{Element, FitRule, MAX_ELEMENTS, MAX_TALLIES, Rule, Tally};

const MAX_BOUND: u32 = 12_000_000;

pub(super) const MAX_WEIGHT: u32 = 1_000_000;

// Whether the value is at most this far from zero.
pub(super) fn is_near(far: u32, value: i32) -> bool
    ensures { result ≡ at_most_from_zero far value }
{
    value.unsigned_abs() <= far
}

// The first refusal that the check of an item gives. It is passed the item and its place, which counts from 1.
fn check_each<T, F: Fn(&T, u8) -> Result<(), Refused>>(items: &[T], check: F) -> Result<(), Refused>
    requires places { length items.now < 255 }
    requires callable { F.IsAlwaysCallable check }
    ensures { (tests : ℕ → T → List (Test Said)) → Gives (F.post check) tests → refusal_in result ≡ first_applying (tests_from tests 1 items.now) }
{
    for (item, place) in items.iter().zip(1..) {
        check(item, place)?;
    }
    Ok(())
}

// A test: whether it applies, and what is refused then.
fn refuse_if(applies: bool, refusal: Refusal, tested: Tested) -> Result<(), Refused>
    ensures { refusal_in result ≡ first_applying (refuse_if applies (refusal_of refusal) (tally_place tested) (element_place tested) ∷ []) }
{
    if applies {
        Err(Refused { refusal, tested })
    } else {
        Ok(())
    }
}

fn check_element(atoms: u8, element: &Element, tested: Tested) -> Result<(), Refused>
    ensures { refusal_in result ≡ first_applying (element_tests atoms (tally_place tested) (element_place tested) (element_of element.now)) }
{
    let named = element.ins.is_within(atoms) && element.outs.is_within(atoms);
    let light = is_near(MAX_WEIGHT, element.weight);
    refuse_if(!named, Refusal::UnnamedMark, tested)?;
    refuse_if(!light, Refusal::HeavyWeight, tested)
}

// The tally's own fields.
fn check_fields<B: Bank>(bank: &B, tally: &Tally, place: u8) -> Result<(), Refused>
    ensures { refusal_in result ≡ first_applying (field_tests (B.meaning bank.now) place (tally_of tally.now)) }
{
    let tested = Tested::Tally { tally: place };
    let kind = tally.kind != 0 && tally.kind <= bank.size();
    let few = tally.elements.len() <= usize::from(MAX_ELEMENTS);
    refuse_if(!kind, Refusal::NoKind, tested)?;
    refuse_if(!tally.relation.is_known(), Refusal::NoRelation, tested)?;
    refuse_if(!tally.sign.is_known(), Refusal::NoSign, tested)?;
    refuse_if(!is_near(MAX_BOUND, tally.bound), Refusal::FarBound, tested)?;
    refuse_if(!few, Refusal::TooManyElements, tested)
}

fn check_tally<B: Bank>(bank: &B, atoms: u8, tally: &Tally, place: u8) -> Result<(), Refused>
    ensures { refusal_in result ≡ first_applying (tally_tests (B.meaning bank.now) atoms place (tally_of tally.now)) }
{
    check_fields(bank, tally, place)?;
    check_each(&tally.elements, |item, element| {
        check_element(
            atoms,
            item,
            Tested::Element {
                tally: place,
                element,
            },
        )
    })
}

// The rule's three sets and the number of its tallies.
fn check_sets(atoms: u8, rule: &Rule) -> Result<(), Refused>
    ensures { refusal_in result ≡ first_applying (rule_tests atoms (rule_of rule.now)) }
{
    let named = rule.head.is_within(atoms)
        && rule.must.is_within(atoms)
        && rule.must_not.is_within(atoms);
    let few = rule.tallies.len() <= usize::from(MAX_TALLIES);
    refuse_if(!named, Refusal::UnnamedMark, Tested::Rule)?;
    refuse_if(!few, Refusal::TooManyTallies, Tested::Rule)
}

impl<B: Bank> Plan<B> {
    // The rule as one that a plan keeps, where none of the tests of enter applies.
    pub(super) fn check_entry(&self, rule: Rule) -> Result<FitRule, Refused>
        ensures { MatchResult result
            (λ k. (rule_of k.rule ≡ rule_of rule) × (enter_refusal (B.meaning self.now.bank) (plan_of self.now) (rule_of rule) ≡ None) × (vec_len self.now.table.rules < 64))
            (λ f. enter_refusal (B.meaning self.now.bank) (plan_of self.now) (rule_of rule) ≡ Some (refused_of f)) }
    {
        if self.table.rules.len() >= MAX_RULES {
            return Err(Refused::from(Refusal::RulesFull));
        }
        let atoms = self.atoms();
        check_sets(atoms, &rule)?;
        check_each(
            &rule.tallies,
            |tally, place| check_tally(&self.bank, atoms, tally, place),
        )?;
        Ok(FitRule { rule })
    }
}
