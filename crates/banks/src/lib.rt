// Banks of kinds of totals: the interface, the plain banks, and banks made from banks.
#![tactic(auto)]

ghost use Rattle.theory.specs.Banks.{Bank as Meaning, Kind, LawfulBank, Light, Near, counting, five_kinds, gaining, mirrored, paired, summing, topping};
ghost use Rattle.std.specs.Prelude.{◌≡◌};
ghost use Rattle.theory.proofs.BankLaws.{counting_lawful, summing_lawful, topping_lawful, paired_lawful, mirrored_lawful, gaining_lawful, five_kinds_lawful};

/// A bank tells how many kinds it has, the empty total of a kind, and the step from a total and a weight to the next
/// total. Whatever implements it owes the laws; within its ranges a call refuses nothing and changes nothing.
pub trait Bank {
    // The three answers as fixed functions.
    ghost meaning: { Self → Meaning };

    /// The number of kinds, which are numbered from 1.
    fn size(&self) -> u8
        ensures { result ≡ (meaning self.now).size };

    /// The total of no weights.
    fn empty(&self, kind: u8) -> i32
        requires { Kind (meaning self.now) kind }
        ensures { result ≡ (meaning self.now).empty kind };

    /// The total with one weight more.
    fn step(&self, kind: u8, total: i32, weight: i32) -> i32
        requires kinds { Kind (meaning self.now) kind }
        requires totals { Near total }
        requires weights { Light weight }
        ensures { result ≡ (meaning self.now).step kind total weight };

    ghost lawful: { (b : Self) → LawfulBank (meaning b) };
}

/// One kind: how many weights there are.
#[derive(Clone, Copy, Debug, Default)]
pub struct Count;

impl Bank for Count {
    ghost meaning = { λ _. counting };

    ghost lawful = { λ _. counting_lawful };

    fn size(&self) -> u8 {
        1
    }

    fn empty(&self, _kind: u8) -> i32 {
        0
    }

    fn step(&self, _kind: u8, total: i32, _weight: i32) -> i32 {
        total + 1
    }
}

/// One kind: the sum of the weights.
#[derive(Clone, Copy, Debug, Default)]
pub struct Sum;

impl Bank for Sum {
    ghost meaning = { λ _. summing };

    ghost lawful = { λ _. summing_lawful };

    fn size(&self) -> u8 {
        1
    }

    fn empty(&self, _kind: u8) -> i32 {
        0
    }

    fn step(&self, _kind: u8, total: i32, weight: i32) -> i32 {
        total + weight
    }
}

/// One kind: the greatest of the weights; of no weights it lies below every bound.
#[derive(Clone, Copy, Debug, Default)]
pub struct Max;

impl Bank for Max {
    ghost meaning = { λ _. topping };

    ghost lawful = { λ _. topping_lawful };

    fn size(&self) -> u8 {
        1
    }

    fn empty(&self, _kind: u8) -> i32 {
        -12_000_001
    }

    fn step(&self, _kind: u8, total: i32, weight: i32) -> i32 {
        total.max(weight)
    }
}

/// The kinds of two banks, the second's numbered after the first's; the first 200 of them all.
#[derive(Clone, Copy, Debug, Default)]
pub struct Pair<A, B> {
    pub first: A,
    pub second: B,
}

// The choice between the two banks stands in both calls: they are of two types, and one function that makes it would
// have to be passed each call twice.
impl<A: Bank, B: Bank> Bank for Pair<A, B> {
    ghost meaning = { λ p. paired (A.meaning p.first) (B.meaning p.second) };

    ghost lawful = { λ p. paired_lawful (A.meaning p.first) (B.meaning p.second) (A.lawful p.first) (B.lawful p.second) };

    fn size(&self) -> u8 {
        let first = u16::from(self.first.size());
        let second = u16::from(self.second.size());
        (first + second).min(200) as u8
    }

    fn empty(&self, kind: u8) -> i32 {
        let first = self.first.size();
        if kind <= first {
            self.first.empty(kind)
        } else {
            self.second.empty(kind - first)
        }
    }

    fn step(&self, kind: u8, total: i32, weight: i32) -> i32 {
        let first = self.first.size();
        if kind <= first {
            self.first.step(kind, total, weight)
        } else {
            self.second.step(kind - first, total, weight)
        }
    }
}

// A step of the bank below with the signs changed, and changed back. Its proof is by hand; that of the mirror's own step is
// found by the check, so that a wrong one is told as the promise that it breaks.
fn mirrored_step<B: Bank>(below: &B, kind: u8, total: i32, weight: i32) -> i32
    requires kinds { Kind (B.meaning below.now) kind }
    requires totals { Near total }
    requires weights { Light weight }
    ensures { result ≡ (mirrored (B.meaning below.now)).step kind total weight }
{
    -below.step(kind, -total, -weight)
}

/// A bank with the signs of its totals and weights changed.
#[derive(Clone, Copy, Debug, Default)]
pub struct Mirror<B> {
    pub below: B,
}

impl<B: Bank> Bank for Mirror<B> {
    ghost meaning = { λ m. mirrored (B.meaning m.below) };

    ghost lawful = { λ m. mirrored_lawful (B.meaning m.below) (B.lawful m.below) };

    fn size(&self) -> u8 {
        self.below.size()
    }

    fn empty(&self, kind: u8) -> i32 {
        -self.below.empty(kind)
    }

    fn step(&self, kind: u8, total: i32, weight: i32) -> i32 {
        mirrored_step(&self.below, kind, total, weight)
    }
}

/// A bank that steps only the weights above 0.
#[derive(Clone, Copy, Debug, Default)]
pub struct Gains<B> {
    pub below: B,
}

impl<B: Bank> Bank for Gains<B> {
    ghost meaning = { λ m. gaining (B.meaning m.below) };

    ghost lawful = { λ m. gaining_lawful (B.meaning m.below) (B.lawful m.below) };

    fn size(&self) -> u8 {
        self.below.size()
    }

    fn empty(&self, kind: u8) -> i32 {
        self.below.empty(kind)
    }

    fn step(&self, kind: u8, total: i32, weight: i32) -> i32 {
        if weight > 0 {
            self.below.step(kind, total, weight)
        } else {
            total
        }
    }
}

// A pair of pairs: the kinds from the left.
type FiveKinds = Pair<Pair<Pair<Pair<Count, Sum>, Max>, Mirror<Max>>, Gains<Sum>>;

/// The product's bank: 1 count, 2 sum, 3 max, 4 min (max mirrored), 5 the sum of the weights above 0.
#[derive(Clone, Copy, Debug)]
pub struct Product {
    kinds: FiveKinds,
}

impl Product {
    pub fn new() -> Product {
        Product {
            kinds: FiveKinds::default(),
        }
    }
}

impl Bank for Product {
    ghost meaning = { λ _. five_kinds };

    ghost lawful = { λ _. five_kinds_lawful };

    fn size(&self) -> u8 {
        self.kinds.size()
    }

    fn empty(&self, kind: u8) -> i32 {
        self.kinds.empty(kind)
    }

    fn step(&self, kind: u8, total: i32, weight: i32) -> i32 {
        self.kinds.step(kind, total, weight)
    }
}
