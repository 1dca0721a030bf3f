// The calls of a plan: making it, name, enter, withdraw, reweigh, and looking at what it holds.
ghost use Rattle.std.specs.Prelude.{◌≡◌, ◌≤◌, length, IfOk};
ghost use Rattle.plans.specs.PlanView.{plan_of};
ghost use Rattle.plans.specs.Refusals.{edit_answer_of, enter_answer_of, name_answer_of};
ghost use Rattle.rules.specs.Kept.{rules_of};
ghost use Rattle.rules.specs.Views.{rule_of};
ghost use Rattle.theory.specs.Calls.{after_enter, after_name, after_reweigh, after_withdraw, enter_answer, name_answer, new_plan, reweigh_answer, withdraw_answer};

use crate::plan::edits::index_of;
use crate::plan::{Plan, Table};
use crate::refusal::{Refusal, Refused};
use banks::Bank;
use rules::{FitRule, Rule};
use std::alloc::{AllocError, Global};

impl<B: Bank + Drop> Plan<B> {
    /// A plan with no atom and no rule, and with room for all that it may hold.
    pub fn new(heap: Global, bank: B) -> Result<Plan<B>, AllocError>
        ensures { IfOk result (λ p. (plan_of p ≡ new_plan) × (p.bank ≡ bank)) }
    {
        let table = Table::new(heap)?;
        Ok(Plan { bank, table })
    }
}

impl<B: Bank> Plan<B> {
    /// Adds the bytes as the name of the next atom, and answers the atom's number.
    pub fn name(&mut self, bytes: &[u8]) -> Result<u8, Refusal>
        ensures answer { name_answer_of result ≡ name_answer (plan_of self.old) bytes.now }
        ensures after { plan_of self.new ≡ after_name (plan_of self.old) bytes.now }
        ensures bank { self.new.bank ≡ self.old.bank }
    {
        let name = self.table.check_name(bytes)?;
        Ok(self.table.add_name(name))
    }

    /// Puts the rule at the end, and answers its place, counted from 1.
    pub fn enter(&mut self, rule: Rule) -> Result<u8, Refused>
        ensures answer { enter_answer_of result ≡ enter_answer (B.meaning self.old.bank) (plan_of self.old) (rule_of rule) }
        ensures after { plan_of self.new ≡ after_enter (B.meaning self.old.bank) (plan_of self.old) (rule_of rule) }
        ensures bank { self.new.bank ≡ self.old.bank }
    {
        let kept = self.check_entry(rule)?;
        Ok(self.table.add_rule(kept))
    }

    /// Takes out the rule at this place, counted from 1; later rules move up.
    pub fn withdraw(&mut self, place: u8) -> Result<(), Refusal>
        ensures answer { edit_answer_of result ≡ withdraw_answer (plan_of self.old) place }
        ensures after { plan_of self.new ≡ after_withdraw (plan_of self.old) place }
        ensures bank { self.new.bank ≡ self.old.bank }
    {
        // By a rule of the project, a place that is not there is refused by `let .. else`, here and in reweigh.
        let Some(at) = index_of(place, self.table.rules.len()) else {
            return Err(Refusal::NoSuchPlace);
        };
        self.table.remove_rule(at);
        Ok(())
    }

    /// Changes the weight of the element at these places, each counted from 1, and nothing else.
    pub fn reweigh(&mut self, rule: u8, tally: u8, element: u8, weight: i32) -> Result<(), Refusal>
        ensures answer { edit_answer_of result ≡ reweigh_answer (plan_of self.old) rule tally element weight }
        ensures after { plan_of self.new ≡ after_reweigh (plan_of self.old) rule tally element weight }
        ensures bank { self.new.bank ≡ self.old.bank }
    {
        self.table.reweigh(rule, tally, element, weight)
    }

    /// The bank that all its calls use.
    pub fn bank(&self) -> &B
        ensures { result.now ≡ self.now.bank }
    {
        &self.bank
    }

    /// How many atoms have names.
    pub fn atoms(&self) -> u8
        ensures { result ≡ length (plan_of self.now).names }
    {
        self.table.names.len() as u8
    }

    /// The rules in their places, at most 64.
    pub fn rules(&self) -> &[FitRule]
        ensures value { rules_of result.now ≡ (plan_of self.now).rules }
        ensures few { length result.now ≤ 64 }
    {
        &self.table.rules
    }
}
