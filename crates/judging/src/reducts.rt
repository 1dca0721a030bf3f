// When a subset of a candidate satisfies the candidate's reduct.
ghost use Rattle.std.specs.Prelude.{◌≡◌};
ghost use Rattle.rules.specs.Kept.{rules_of};
ghost use Rattle.rules.specs.Views.{rule_of};
ghost use Rattle.theory.specs.Verdicts.{passed, satisfies, satisfies_rule};

use crate::bodies::Plain;
use crate::tallies::{TallyTest, every_tally};
use crate::totals::Seen;
use banks::Bank;
use readings::Reading;
use rules::{FitRule, Tally};

/// A tally passes as the reading says, from the two facts.
impl<B: Bank, R: Reading> TallyTest for Seen<'_, B, R> {
    ghost test = { λ s. passed (B.meaning s.bank.now) (R.meaning s.reading.now) s.at.candidate.0 s.at.subset.0 };

    fn passes(&self, tally: &Tally) -> bool {
        let for_candidate = self.candidate().relation_holds(tally);
        let for_subset = self.relation_holds(tally);
        self.reading
            .passes(tally.sign.is_negated(), for_candidate, for_subset)
    }
}

impl<'a, B: Bank, R: Reading> Seen<'a, B, R> {
    // The candidate, as the plain definition sees it.
    fn candidate(&self) -> Plain<'a, B>
        ensures bank { result.bank.now ≡ self.now.bank.now }
        ensures set { result.set ≡ self.now.at.candidate }
    {
        Plain {
            bank: self.bank,
            set: self.at.candidate,
        }
    }

    // Whether the subset satisfies the rule in the reduct. The cheap tests come first.
    fn satisfies_rule(&self, kept: &FitRule) -> bool
        ensures { result ≡ satisfies_rule (B.meaning self.now.bank.now) (R.meaning self.now.reading.now) self.now.at.candidate.0 self.now.at.subset.0 (rule_of kept.now.rule) }
    {
        !self.at.subset.contains(kept.rule.must)
            || !self.at.subset.misses(kept.rule.head)
            || !every_tally(self, kept)
            || !self.candidate().holds_body(kept)
    }

    /// Whether the subset satisfies the reduct of the rules at the candidate.
    pub fn satisfies(&self, rules: &[FitRule]) -> bool
        ensures { result ≡ satisfies (B.meaning self.now.bank.now) (R.meaning self.now.reading.now) (rules_of rules.now) self.now.at.candidate.0 self.now.at.subset.0 }
    {
        rules.iter().all(|kept| self.satisfies_rule(kept))
    }
}
