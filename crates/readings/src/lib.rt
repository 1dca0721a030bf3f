// Readings of a tally: how its elements count and when it passes, at a candidate and a set inside it.
#![tactic(auto)]

ghost use Rattle.theory.specs.Readings.{LawfulReading, Reading as Meaning, ferraris, flp};
ghost use Rattle.std.specs.Prelude.{◌≡◌};
ghost use Rattle.theory.proofs.Lawful.{flp_lawful, ferraris_lawful};

use sets::{AtomSet, Inside};

/// A reading is asked two questions about a candidate and a subset of it (which may be the candidate itself).
/// Whatever implements it owes the laws; a call refuses nothing and changes nothing.
pub trait Reading {
    // The two answers as fixed functions.
    ghost meaning: { Self → Meaning };

    /// Whether an element with this in set and this out set counts.
    fn counts(&self, at: Inside, ins: AtomSet, outs: AtomSet) -> bool
        ensures { result ≡ (meaning self.now).counts at.candidate.0 at.subset.0 ins.0 outs.0 };

    /// Whether a tally passes, from whether its sign is negated, whether its relation holds for the candidate, and
    /// whether it holds for the subset over the elements that count.
    fn passes(&self, negated: bool, for_candidate: bool, for_subset: bool) -> bool
        ensures { result ≡ (meaning self.now).passes negated for_candidate for_subset };

    ghost lawful: { (r : Self) → LawfulReading (meaning r) };
}

/// The reading of Faber, Leone and Pfeifer: everything is read in the subset.
#[derive(Clone, Copy, Debug)]
pub struct Flp;

impl Reading for Flp {
    ghost meaning = { λ _. flp };

    ghost lawful = { λ r. flp_lawful };

    fn counts(&self, at: Inside, ins: AtomSet, outs: AtomSet) -> bool {
        at.subset.contains(ins) && at.subset.misses(outs)
    }

    fn passes(&self, negated: bool, _for_candidate: bool, for_subset: bool) -> bool {
        if negated { !for_subset } else { for_subset }
    }
}

/// The reading of Ferraris: out sets and negated tallies are read in the candidate.
#[derive(Clone, Copy, Debug)]
pub struct Ferraris;

impl Reading for Ferraris {
    ghost meaning = { λ _. ferraris };

    ghost lawful = { λ r. ferraris_lawful };

    fn counts(&self, at: Inside, ins: AtomSet, outs: AtomSet) -> bool {
        at.subset.contains(ins) && at.candidate.misses(outs)
    }

    fn passes(&self, negated: bool, for_candidate: bool, for_subset: bool) -> bool {
        if negated { !for_candidate } else { for_subset }
    }
}
