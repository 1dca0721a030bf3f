// A tally's total over the elements that a reading counts, and whether its relation holds.
ghost use Rattle.std.specs.Prelude.{◌≡◌, ◌≤◌, true, map, length};
ghost use Rattle.std.specs.List.{list_all};
ghost use Rattle.rules.specs.Fits.{fit_tally, light};
ghost use Rattle.rules.specs.Views.{element_of, tally_of};
ghost use Rattle.theory.specs.Banks.{Kind};
ghost use Rattle.theory.specs.Rules.{fact, total};
ghost use Rattle.theory.specs.Verdicts.{counts_at};

use banks::Bank;
use readings::Reading;
use rules::{Element, Tally};
use sets::Inside;

/// A candidate and a subset of it, as a bank and a reading see them.
#[derive(Drop)]
pub struct Seen<'a, B, R> {
    pub bank: &'a B,
    pub reading: &'a R,
    pub at: Inside,
}

impl<B: Bank, R: Reading> Seen<'_, B, R> {
    /// The total of the elements that count, stepped through in their written order.
    // Inlined, as `relation_holds` and `Plain::holds_body` are: the search over subsets then makes no call for a rule.
    #[inline(always)]
    fn total(&self, kind: u8, elements: &[Element]) -> i32
        requires kinds { Kind (B.meaning self.now.bank.now) kind }
        requires few { length elements.now ≤ 12 }
        requires weights { list_all light (map element_of elements.now) ≡ true }
        ensures { let bank = B.meaning self.now.bank.now in
            let counts = counts_at (R.meaning self.now.reading.now) self.now.at.candidate.0 self.now.at.subset.0 in
            result ≡ total bank kind counts (bank.empty kind) (map element_of elements.now) }
    {
        let mut sum = self.bank.empty(kind);
        for element in elements {
            if self.reading.counts(self.at, element.ins, element.outs) {
                sum = self.bank.step(kind, sum, element.weight);
            }
        }
        sum
    }

    /// Whether the tally's relation holds over the elements that count.
    // Inlined, so that the compiler drops a fact that the reading does not look at: judging takes twice the time without.
    #[inline(always)]
    #[tactic(auto, unfolding(theory::specs::Rules::fact))]
    pub fn relation_holds(&self, tally: &Tally) -> bool
        requires { fit_tally (tally_of tally.now) ≡ true }
        ensures { result ≡ fact (B.meaning self.now.bank.now) (tally_of tally.now) (counts_at (R.meaning self.now.reading.now) self.now.at.candidate.0 self.now.at.subset.0) }
    {
        if tally.kind == 0 || tally.kind > self.bank.size() {
            return false;
        }
        let sum = self.total(tally.kind, &tally.elements);
        tally.relation.holds(sum, tally.bound)
    }
}
