// The nodes on paths: of one path, or of several, those on any of them.
ghost use Rattle.sets.specs.Sets.{◌∪◌};
ghost use Rattle.paths.specs.Instances.{node_alone, ReachIsPassed};
ghost use Rattle.paths.specs.Unions.{union_lawful};

use crate::algebra::PathAlgebra;
use sets::bit_set::BitSet;
use table::records::Node;

#[derive(Clone, Copy, Debug, PartialEq, Eq, Drop)]
pub struct Reach;

impl PathAlgebra for Reach {
    type Value = BitSet;

    ghost choice = { λ _ a b. a ∪ b };

    ghost extension = { λ _ a b. a ∪ b };

    ghost weight = { λ _ number node. node_alone number node };

    ghost lawful = { λ s. union_lawful };

    fn choose(&self, a: BitSet, b: BitSet) -> BitSet {
        a.union(b)
    }

    fn extend(&self, a: BitSet, b: BitSet) -> BitSet {
        a.union(b)
    }

    fn weigh(&self, number: usize, _node: &Node) -> BitSet {
        if number < 64 {
            BitSet::EMPTY.with(number)
        } else {
            BitSet::EMPTY
        }
    }
}

// The choice over the paths from a node to a goal is the set of the nodes through which they pass.
#[tactic(auto, using(crate::proofs::Passed::passed))]
pub fn reach_is_passed()
    ensures { ReachIsPassed }
{}
