// A test that each tally of a rule is to pass.
ghost use Rattle.std.specs.Prelude.{◌≡◌, Bool, true};
ghost use Rattle.std.specs.List.{list_all};
ghost use Rattle.rules.specs.Fits.{fit_tally};
ghost use Rattle.rules.specs.Views.{rule_of, tally_of};
ghost use Rattle.theory.specs.Rules.{Tally as Meaning};

use rules::{FitRule, Tally};

/// What is asked of each tally of a rule.
pub trait TallyTest {
    // The answers as a fixed function.
    ghost test: { Self → Meaning → Bool };

    /// Whether the tally passes.
    // That it is fit is asked here and of `relation_holds`, and is in no type. Tried: a typed one that `every_tally` makes
    // of a lent tally has to be shown fit inside its closure, where that goal stayed open.
    fn passes(&self, tally: &Tally) -> bool
        requires { fit_tally (tally_of tally.now) ≡ true }
        ensures { result ≡ test self.now (tally_of tally.now) };
}

/// Whether each tally of the rule passes.
pub fn every_tally<T: TallyTest>(test: &T, kept: &FitRule) -> bool
    ensures { result ≡ list_all (T.test test.now) (rule_of kept.now.rule).tallies }
{
    kept.rule.tallies.iter().all(|tally| test.passes(tally))
}
