// Rules, their tallies and the elements of those.
#![tactic(auto)]

ghost use Rattle.rules.specs.Fits.{fit_rule};
ghost use Rattle.rules.specs.Views.{relation_of, rule_of, sign_of};
ghost use Rattle.theory.specs.Calls.{known_relation, known_sign, relation_coded, sign_coded};
ghost use Rattle.theory.specs.Rules.{negates, relates};
ghost use Rattle.std.specs.Prelude.{◌≡◌, true};

use sets::AtomSet;

/// The most tallies that a rule may have.
pub const MAX_TALLIES: u8 = 2;

/// The most elements that a tally may have.
pub const MAX_ELEMENTS: u8 = 12;

/// A weight, which counts where the in set is there and the out set is not.
#[derive(Clone, Copy, Debug, PartialEq, Eq)]
pub struct Element {
    pub ins: AtomSet,
    pub outs: AtomSet,
    pub weight: i32,
}

/// A relation between a total, on the left, and a bound. `Unread` is a code that was sent and is none of the six:
/// no plan keeps one.
// No `Result` beside it: the reader takes every code, so its conversion cannot fail, and the plan refuses an unread one in
// its turn among the tests.
#[derive(Clone, Copy, Debug, PartialEq, Eq)]
pub enum Relation {
    Equal,
    Unequal,
    Below,
    Above,
    AtMost,
    AtLeast,
    Unread(u8),
}

/// Whether a tally is met where its relation holds or where it fails. `Unread` is a code that was sent and is
/// neither: no plan keeps one.
// No `Result` beside it, as for a relation.
#[derive(Clone, Copy, Debug, PartialEq, Eq)]
pub enum Sign {
    Plain,
    Negated,
    Unread(u8),
}

/// A condition on a total: of its kind in the bank, over the elements that count, against a bound.
// The kind is a number and no enum: banks number their kinds, a pair of banks the second's after the first's.
#[derive(Drop)]
pub struct Tally {
    pub kind: u8,
    pub relation: Relation,
    pub sign: Sign,
    pub bound: i32,
    pub elements: Vec<Element>,
}

/// Head atoms, of which one must hold where the body does: the must set is there, the must-not set is not, and each
/// tally is met.
#[derive(Drop)]
pub struct Rule {
    pub head: AtomSet,
    pub must: AtomSet,
    pub must_not: AtomSet,
    pub tallies: Vec<Tally>,
}

/// A rule that a plan keeps: each of its tallies has at most 12 elements, of weights at most 1,000,000 from zero, so that
/// its totals stay in range whatever the bank.
#[derive(Drop)]
pub struct FitRule {
    pub rule: Rule,
    ghost fit: { fit_rule (rule_of rule) ≡ true },
}

/// The relation with a code: 1 is =, 2 ≠, 3 <, 4 >, 5 ≤ and 6 ≥.
impl From<u8> for Relation {
    ghost from_gives = { λ code relation. relation_of relation ≡ relation_coded code };

    fn from(code: u8) -> Relation {
        match code {
            1 => Relation::Equal,
            2 => Relation::Unequal,
            3 => Relation::Below,
            4 => Relation::Above,
            5 => Relation::AtMost,
            6 => Relation::AtLeast,
            _ => Relation::Unread(code),
        }
    }
}

impl Relation {
    /// Whether this is one of the six relations.
    pub fn is_known(self) -> bool
        ensures { result ≡ known_relation (relation_of self) }
    {
        !matches!(self, Relation::Unread(_))
    }

    /// Whether the relation holds between a total and a bound.
    #[tactic(auto, using(crate::proofs::Numbers::same), unfolding(theory::specs::Rules::relates))]
    pub fn holds(self, total: i32, bound: i32) -> bool
        ensures { result ≡ relates (relation_of self) total bound }
    {
        match self {
            Relation::Equal => total == bound,
            Relation::Unequal => total != bound,
            Relation::Below => total < bound,
            Relation::Above => total > bound,
            Relation::AtMost => total <= bound,
            Relation::AtLeast => total >= bound,
            Relation::Unread(_) => false,
        }
    }
}

/// The sign with a code: 0 is plain and 1 negated.
impl From<u8> for Sign {
    ghost from_gives = { λ code sign. sign_of sign ≡ sign_coded code };

    fn from(code: u8) -> Sign {
        match code {
            0 => Sign::Plain,
            1 => Sign::Negated,
            _ => Sign::Unread(code),
        }
    }
}

impl Sign {
    /// Whether this is one of the two signs.
    pub fn is_known(self) -> bool
        ensures { result ≡ known_sign (sign_of self) }
    {
        !matches!(self, Sign::Unread(_))
    }

    /// Whether the tally is met where its relation fails.
    pub fn is_negated(self) -> bool
        ensures { result ≡ negates (sign_of self) }
    {
        self == Sign::Negated
    }
}
