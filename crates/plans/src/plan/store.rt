// The table of a plan: names and rules put at their ends, and rules changed or taken out.
ghost use Rattle.std.specs.Prelude.{◌≡◌, suc, ◌<◌, [], ◌∷◌, ◌++◌, length, Some, None, vec_len, IfOk, MatchResult};
ghost use Rattle.plans.specs.PlanView.{table_of, text_of};
ghost use Rattle.plans.specs.Refusals.{edit_answer_of, refusal_of};
ghost use Rattle.rules.specs.Views.{rule_of};
ghost use Rattle.theory.specs.Calls.{after_reweigh, name_refusal, new_plan, reweigh_answer, withdrawn};

use crate::plan::edits::{index_of, reweigh_element};
use crate::plan::names::is_borne;
use crate::plan::{MAX_ATOMS, MAX_RULES, Name, Table};
use crate::refusal::Refusal;
use rules::FitRule;
use std::alloc::{AllocError, Global};

impl Table {
    pub(super) fn new(heap: Global) -> Result<Table, AllocError>
        ensures { IfOk result (λ t. table_of t ≡ new_plan) }
    {
        let names = Vec::with_capacity(heap, MAX_ATOMS)?;
        let rules = Vec::with_capacity(heap, MAX_RULES)?;
        Ok(Table { names, rules })
    }

    // The bytes as a name, where none of the tests of name applies.
    pub(super) fn check_name(&self, bytes: &[u8]) -> Result<Name, Refusal>
        ensures { MatchResult result
            (λ n. (text_of n ≡ bytes.now) × (name_refusal (table_of self.now) bytes.now ≡ None) × (vec_len self.now.names < 32))
            (λ f. name_refusal (table_of self.now) bytes.now ≡ Some (refusal_of f)) }
    {
        let name = Name::try_from(bytes)?;
        if is_borne(&self.names, bytes) {
            return Err(Refusal::NameBorne);
        }
        if self.names.len() >= MAX_ATOMS {
            return Err(Refusal::AtomsFull);
        }
        Ok(name)
    }

    // The name becomes the next atom's; its number.
    pub(super) fn add_name(&mut self, name: Name) -> u8
        requires { vec_len self.old.names < 32 }
        ensures number { result ≡ length (table_of self.old).names }
        ensures after { table_of self.new ≡ record { names = (table_of self.old).names ++ text_of name ∷ []; rules = (table_of self.old).rules } }
    {
        let atom = self.names.len() as u8;
        self.names.push_reserved(name);
        atom
    }

    // The rule goes to the end; its place.
    pub(super) fn add_rule(&mut self, kept: FitRule) -> u8
        requires { vec_len self.old.rules < 64 }
        ensures number { result ≡ suc (length (table_of self.old).rules) }
        ensures after { table_of self.new ≡ record { names = (table_of self.old).names; rules = (table_of self.old).rules ++ rule_of kept.rule ∷ [] } }
    {
        self.rules.push_reserved(kept);
        self.rules.len() as u8
    }

    // The rule at this index goes.
    pub(super) fn remove_rule(&mut self, at: usize)
        requires { at < vec_len self.old.rules }
        ensures { table_of self.new ≡ record { names = (table_of self.old).names; rules = withdrawn (suc at) (table_of self.old).rules } }
    {
        let _withdrawn = self.rules.remove(at);
    }

    // The rule at this place is lent, and one of its weights is written. The proof is by hand; that of the plan's call is found
    // by the check, so that a wrong one is told as the promise that it breaks.
    pub(super) fn reweigh(
        &mut self,
        rule: u8,
        tally: u8,
        element: u8,
        weight: i32,
    ) -> Result<(), Refusal>
        ensures answer { edit_answer_of result ≡ reweigh_answer (table_of self.old) rule tally element weight }
        ensures after { table_of self.new ≡ after_reweigh (table_of self.old) rule tally element weight }
    {
        let Some(rule_at) = index_of(rule, self.rules.len()) else {
            return Err(Refusal::NoSuchPlace);
        };
        reweigh_element(&mut self.rules[rule_at], tally, element, weight)
    }
}
