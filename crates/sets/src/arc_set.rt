// Sets of arcs between numbers below 64.
ghost use Rattle.std.specs.Prelude.{◌≡◌, ℕ, ◌<◌, slice_index_or};
ghost use Rattle.sets.specs.Sets.{HasArc, WithArc};
ghost use Rattle.sets.specs.Tests.{Says};

use crate::bit_set::BitSet;

// Row u has the numbers to which an arc from u is in the set.
#[derive(Clone, Copy, Debug, PartialEq, Eq, Drop)]
pub struct ArcSet {
    rows: [BitSet; 64],
}

impl ArcSet {
    pub fn new() -> ArcSet
        ensures { (u v : ℕ) → HasArc result u v → ⊥ }
    {
        ArcSet {
            rows: [BitSet::EMPTY; 64],
        }
    }

    pub fn has(&self, u: usize, v: usize) -> bool
        requires { u < 64 }
        ensures { Says result (HasArc self.now u v) }
    {
        self.rows[u].has(v)
    }

    pub fn insert(&mut self, u: usize, v: usize)
        requires { (u < 64) × (v < 64) }
        ensures { WithArc self.old u v self.new }
    {
        self.rows[u] = self.rows[u].with(v);
    }

    // The numbers to which an arc from u is in the set.
    pub fn row(&self, u: usize) -> BitSet
        requires { u < 64 }
        ensures { result ≡ slice_index_or self.now.rows u (record { bits = 0 }) }
    {
        self.rows[u]
    }
}
