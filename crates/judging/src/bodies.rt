// What a set meets and holds by the plain definition.
ghost use Rattle.std.specs.Prelude.{◌≡◌, true};
ghost use Rattle.rules.specs.Fits.{fit_tally};
ghost use Rattle.rules.specs.Views.{rule_of, tally_of};
ghost use Rattle.theory.specs.Rules.{counted, fact, holds_body, holds_rule, met};

use crate::tallies::{TallyTest, every_tally};
use crate::totals::Seen;
use banks::Bank;
use readings::Flp;
use rules::{FitRule, Tally};
use sets::{AtomSet, Inside};

/// A set, as the plain definition sees it over a bank.
#[derive(Drop)]
pub struct Plain<'a, B> {
    pub bank: &'a B,
    pub set: AtomSet,
}

impl<B: Bank> Plain<'_, B> {
    /// Whether the tally's relation holds over the elements that the set counts. At one set, every reading counts as the
    /// plain definition does.
    pub fn relation_holds(&self, tally: &Tally) -> bool
        requires { fit_tally (tally_of tally.now) ≡ true }
        ensures { result ≡ fact (B.meaning self.now.bank.now) (tally_of tally.now) (counted self.now.set.0) }
    {
        let seen = Seen {
            bank: self.bank,
            reading: &Flp,
            at: Inside::whole(self.set),
        };
        seen.relation_holds(tally)
    }

    /// Whether the set holds the rule's body.
    // Inlined: it is asked of the candidate for many subsets, and judging rules without tallies takes about twice the time
    // without.
    #[inline(always)]
    pub fn holds_body(&self, kept: &FitRule) -> bool
        ensures { result ≡ holds_body (B.meaning self.now.bank.now) self.now.set.0 (rule_of kept.now.rule) }
    {
        self.set.contains(kept.rule.must)
            && self.set.misses(kept.rule.must_not)
            && every_tally(self, kept)
    }

    /// Whether the set holds the rule.
    pub fn holds_rule(&self, kept: &FitRule) -> bool
        ensures { result ≡ holds_rule (B.meaning self.now.bank.now) self.now.set.0 (rule_of kept.now.rule) }
    {
        !self.holds_body(kept) || !self.set.misses(kept.rule.head)
    }
}

/// A tally passes where the set meets it.
impl<B: Bank> TallyTest for Plain<'_, B> {
    ghost test = { λ p. met (B.meaning p.bank.now) p.set.0 };

    fn passes(&self, tally: &Tally) -> bool {
        let holds = self.relation_holds(tally);
        if tally.sign.is_negated() {
            !holds
        } else {
            holds
        }
    }
}
