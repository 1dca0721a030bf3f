// A candidate under the rules of a plan: the first rule that it breaks, and its lowest subset that satisfies the reduct.
ghost use Rattle.std.specs.Prelude.{◌≡◌, ◌≤◌, length};
ghost use Rattle.judging.specs.Answers.{set_in, verdict_of};
ghost use Rattle.rules.specs.Kept.{rules_of};
ghost use Rattle.theory.specs.Verdicts.{first_broken, lowest_inside, verdict};

use crate::Verdict;
use crate::bodies::Plain;
use crate::totals::Seen;
use banks::Bank;
use readings::Reading;
use rules::FitRule;
use sets::{AtomSet, Inside};

/// A candidate to be judged, under a reading, against rules over a bank.
#[derive(Drop)]
pub struct Trial<'a, B, R> {
    pub bank: &'a B,
    pub reading: &'a R,
    pub candidate: AtomSet,
    pub rules: &'a [FitRule],
    ghost few: { length rules.now ≤ 64 },
}

impl<B: Bank, R: Reading> Trial<'_, B, R> {
    /// The verdict on the candidate.
    pub fn verdict(&self) -> Verdict
        ensures { verdict_of result ≡ verdict (B.meaning self.now.bank.now) (R.meaning self.now.reading.now) (rules_of self.now.rules.now) self.now.candidate.0 }
    {
        if let Some(place) = self.first_broken() {
            return Verdict::Broken(place);
        }
        match self.lowest_satisfying() {
            Some(subset) => Verdict::Smaller(subset),
            None => Verdict::Stable,
        }
    }

    // The first place, counted from 1, whose rule the candidate does not hold.
    fn first_broken(&self) -> Option<u8>
        ensures { result ≡ first_broken (B.meaning self.now.bank.now) (rules_of self.now.rules.now) self.now.candidate.0 }
    {
        let plain = Plain {
            bank: self.bank,
            set: self.candidate,
        };
        self.rules
            .iter()
            .position(|kept| !plain.holds_rule(kept))
            .map(|i| i as u8 + 1)
    }

    // The lowest number among the proper subsets of the candidate that satisfy the reduct.
    #[tactic(auto, using(theory::proofs::SetLaws::contains_le, theory::proofs::Searches::lowest_none), unfolding(theory::specs::Verdicts::lowest_inside))]
    fn lowest_satisfying(&self) -> Option<AtomSet>
        ensures { set_in result ≡ lowest_inside (B.meaning self.now.bank.now) (R.meaning self.now.reading.now) (rules_of self.now.rules.now) self.now.candidate.0 }
    {
        let mut subset = AtomSet(0);
        while subset != self.candidate {
            let seen = Seen {
                bank: self.bank,
                reading: self.reading,
                at: Inside {
                    candidate: self.candidate,
                    subset,
                },
            };
            if seen.satisfies(self.rules) {
                return Some(subset);
            }
            subset = subset.next_inside(self.candidate);
        }
        None
    }
}
