// The numbers of a set, one after another.
ghost use Rattle.std.specs.Prelude.{◌≡◌, ℕ, Some, None};
ghost use Rattle.std.specs.Iterator.{at_most};
ghost use Rattle.sets.specs.Sets.{Has};
ghost use Rattle.sets.specs.InTurn.{TakenOut, GivesLeast, count_below};

use crate::bit_set::BitSet;

// The least number of a set and the others.
fn split_least(set: BitSet) -> Option<(usize, BitSet)>
    ensures { elim result [ Some split ↦ TakenOut set split.0 split.1 | None ↦ ((n : ℕ) → Has set n → ⊥) ] }
{
    let least = set.least()?;
    Some((least, set.without(least)))
}

// Gives the numbers from the least to the greatest.
#[derive(Clone, Debug, Drop)]
pub struct Members {
    left: BitSet,
}

impl Iterator for Members {
    type Item = usize;

    ghost next_gives = { λ s r t. GivesLeast s.left r t.left };

    ghost remaining = { λ s. at_most (count_below 64 s.left) };

    fn next(&mut self) -> Option<usize> {
        let (least, others) = split_least(self.left)?;
        self.left = others;
        Some(least)
    }
}

impl IntoIterator for BitSet {
    type Item = usize;

    type IntoIter = Members;

    ghost into_iter_gives = { λ s r. r.left ≡ s };

    fn into_iter(self) -> Members {
        Members { left: self }
    }
}
