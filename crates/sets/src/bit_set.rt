// Sets of numbers below 64: nodes, or branches.
ghost use Rattle.std.specs.Prelude.{◌≡◌, ℕ, ◌<◌, ◌≤◌, Some, None};
ghost use Rattle.sets.specs.Sets.{JustOne, Has, With, Only, Least, Without, Marks, Selects, ◌∪◌};
ghost use Rattle.sets.specs.Tests.{Says};

// Bit n is set where the number n is in the set.
#[derive(Clone, Copy, Debug, PartialEq, Eq, Drop)]
pub struct BitSet {
    bits: u64,
}

impl BitSet {
    pub const EMPTY: BitSet = BitSet { bits: 0 };

    // The numbers below n that pass the test.
    pub fn select<F: Fn(usize) -> bool>(n: usize, test: F) -> BitSet
        requires few { n ≤ 64 }
        requires callable { (k : ℕ) → k < n → F.pre test k }
        ensures { Selects (F.post test) n result }
    {
        // the one loop by number, for all that gather by a test
        let mut set = BitSet::EMPTY;
        for k in 0..n {
            if test(k) {
                set = set.with(k);
            }
        }
        set
    }

    // The numbers below n.
    pub fn below(n: usize) -> BitSet
        requires { n ≤ 64 }
        ensures { Marks (λ k. k < n) result }
    {
        BitSet::select(n, |_| true)
    }

    pub fn has(self, n: usize) -> bool
        ensures { Says result (Has self n) }
    {
        n < 64 && self.bits >> n & 1 == 1
    }

    pub fn with(self, n: usize) -> BitSet
        requires { n < 64 }
        ensures { With self n result }
    {
        BitSet {
            bits: self.bits | 1 << n,
        }
    }

    // The number in a set of just one.
    pub fn only(self) -> Option<usize>
        ensures { elim result [ Some n ↦ Only self n | None ↦ (JustOne (Has self) → ⊥) ] }
    {
        if self.bits == 0 {
            return None;
        }
        let least = self.bits.trailing_zeros();
        if self.bits == 1 << least {
            Some(least as usize)
        } else {
            None
        }
    }

    pub fn least(self) -> Option<usize>
        ensures { elim result [ Some n ↦ Least self n | None ↦ ((n : ℕ) → Has self n → ⊥) ] }
    {
        if self.bits == 0 {
            return None;
        }
        Some(self.bits.trailing_zeros() as usize)
    }

    pub fn without(self, n: usize) -> BitSet
        requires { Has self n }
        ensures { Without self n result }
    {
        BitSet {
            bits: self.bits ^ 1 << n,
        }
    }

    // What is in either set.
    pub fn union(self, other: BitSet) -> BitSet
        ensures { result ≡ self ∪ other }
    {
        BitSet {
            bits: self.bits | other.bits,
        }
    }

    // What is in both sets.
    pub fn common(self, other: BitSet) -> BitSet
        ensures { Marks (λ n. Has self n × Has other n) result }
    {
        BitSet {
            bits: self.bits & other.bits,
        }
    }

    // Whether all that is in the set is in the other too.
    pub fn is_within(self, other: BitSet) -> bool
        ensures { Says result ((n : ℕ) → Has self n → Has other n) }
    {
        self.bits & other.bits == self.bits
    }
}
