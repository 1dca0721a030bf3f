// Sets of at most 32 atoms.
#![tactic(auto)]

ghost use Rattle.sets.specs.Next.{Next};
ghost use Rattle.theory.specs.Sets.{contains, misses, within};
ghost use Rattle.std.specs.Prelude.{◌≡◌, true, ◌≢◌};

/// A set of atoms: bit n, worth 2^n, marks atom n.
#[derive(Clone, Copy, Debug, PartialEq, Eq)]
pub struct AtomSet(pub u32);

impl AtomSet {
    /// Whether the set contains each atom of the other.
    #[tactic(auto, unfolding(theory::specs::Sets::contains))]
    pub fn contains(self, other: AtomSet) -> bool
        ensures { result ≡ contains self.0 other.0 }
    {
        self.0 & other.0 == other.0
    }

    /// Whether the set has no atom of the other.
    #[tactic(auto, unfolding(theory::specs::Sets::misses))]
    pub fn misses(self, other: AtomSet) -> bool
        ensures { result ≡ misses self.0 other.0 }
    {
        self.0 & other.0 == 0
    }

    /// Whether each atom of the set is one of the first `atoms`.
    #[tactic(auto, using(crate::proofs::Shifts::all_within), unfolding(theory::specs::Sets::within))]
    pub fn is_within(self, atoms: u8) -> bool
        ensures { result ≡ within atoms self.0 }
    {
        atoms >= 32 || self.0 < 1u32 << atoms
    }

    /// The subset of `whole` that follows this one in ascending order of their numbers.
    #[tactic(auto, using(crate::proofs::Steps::and_inside, crate::proofs::Steps::next_above, crate::proofs::Steps::next_first))]
    pub fn next_inside(self, whole: AtomSet) -> AtomSet
        requires inside { contains whole.0 self.0 ≡ true }
        requires proper { self.0 ≢ whole.0 }
        ensures { Next whole.0 self.0 result.0 }
    {
        // Borrowing from the bits outside `whole` carries past them to the next bit of `whole`.
        AtomSet(self.0.wrapping_sub(whole.0) & whole.0)
    }
}

/// A candidate and a subset of it, which may be the candidate itself.
#[derive(Clone, Copy)]
pub struct Inside {
    pub candidate: AtomSet,
    pub subset: AtomSet,
    ghost inside: { contains candidate.0 subset.0 ≡ true },
}

impl Inside {
    /// A set inside itself.
    #[tactic(auto, using(theory::proofs::SetLaws::contains_self))]
    pub fn whole(set: AtomSet) -> Inside
        ensures candidate { result.candidate ≡ set }
        ensures subset { result.subset ≡ set }
    {
        Inside {
            candidate: set,
            subset: set,
        }
    }
}
