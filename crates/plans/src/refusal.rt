// Why a call of a plan is refused.
ghost use Rattle.plans.specs.Refusals.{element_place, refusal_of, tally_place};
ghost use Rattle.plans.specs.declared.refusal.Tested.TheVariants.{Rule};
ghost use Rattle.theory.specs.Calls.{number};
ghost use Rattle.std.specs.Prelude.{◌≡◌};

/// The reason for a refusal.
#[derive(Clone, Copy, Debug, PartialEq, Eq)]
pub enum Refusal {
    /// A name of no byte or of more than 16.
    NameLength,
    /// A name with a byte that is no ASCII letter, digit or hyphen.
    NameByte,
    /// A name that an atom bears already.
    NameBorne,
    /// The plan has 32 atoms.
    AtomsFull,
    /// The plan has 64 rules.
    RulesFull,
    /// A set with a mark whose atom has no name.
    UnnamedMark,
    /// A rule of more than 2 tallies.
    TooManyTallies,
    /// A tally of more than 12 elements.
    TooManyElements,
    /// A kind that the bank does not have.
    NoKind,
    /// A relation's code that is not 1 to 6.
    NoRelation,
    /// A sign's code that is not 0 or 1.
    NoSign,
    /// A bound more than 12,000,000 from zero.
    FarBound,
    /// A weight more than 1,000,000 from zero.
    HeavyWeight,
    /// The place of a rule, a tally or an element that is not there.
    NoSuchPlace,
    /// A candidate of more than 20 marks.
    TooManyMarks,
}

/// The refusal's number in reports.
impl From<Refusal> for u8 {
    ghost from_gives = { λ f n. n ≡ number (refusal_of f) };

    fn from(refusal: Refusal) -> u8 {
        match refusal {
            Refusal::NameLength => 4,
            Refusal::NameByte => 5,
            Refusal::NoKind => 6,
            Refusal::NoRelation => 7,
            Refusal::NoSign => 8,
            Refusal::TooManyTallies | Refusal::TooManyElements => 9,
            Refusal::HeavyWeight => 10,
            Refusal::FarBound => 11,
            Refusal::NameBorne => 20,
            Refusal::AtomsFull => 21,
            Refusal::UnnamedMark => 22,
            Refusal::RulesFull => 23,
            Refusal::NoSuchPlace => 24,
            Refusal::TooManyMarks => 25,
        }
    }
}

/// What of a rule was being tested, by the places of the tally and of the element, which count from 1.
#[derive(Clone, Copy, Debug, PartialEq, Eq)]
pub enum Tested {
    Rule,
    Tally { tally: u8 },
    Element { tally: u8, element: u8 },
}

impl Tested {
    /// The places of the tally and of the element in reports, where 0 says that none was being tested.
    pub fn places(self) -> (u8, u8)
        ensures tally { result.0 ≡ tally_place self }
        ensures element { result.1 ≡ element_place self }
    {
        match self {
            Tested::Rule => (0, 0),
            Tested::Tally { tally } => (tally, 0),
            Tested::Element { tally, element } => (tally, element),
        }
    }
}

/// A refusal of a rule, and what of it was being tested.
#[derive(Clone, Copy, Debug, PartialEq, Eq)]
pub struct Refused {
    pub refusal: Refusal,
    pub tested: Tested,
}

/// A refusal while neither a tally nor an element was being tested.
impl From<Refusal> for Refused {
    ghost from_gives = { λ f r. r ≡ record { refusal = f; tested = Rule } };

    fn from(refusal: Refusal) -> Refused {
        Refused {
            refusal,
            tested: Tested::Rule,
        }
    }
}
