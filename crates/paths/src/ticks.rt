// Ticks along paths: the times of the nodes of a path add up, and the greatest sum is chosen.
ghost use Rattle.std.specs.Prelude.{max};
ghost use Rattle.paths.specs.Instances.{capped_sum, node_ticks, TicksAreGreatest, TicksAddUp};
ghost use Rattle.std.proofs.Common.{rules};

use crate::algebra::PathAlgebra;
use table::records::Node;

#[derive(Clone, Copy, Debug, PartialEq, Eq, Drop)]
pub struct Ticks;

impl PathAlgebra for Ticks {
    type Value = u64;

    ghost choice = { λ _ a b. max a b };

    ghost extension = { λ _ a b. capped_sum a b };

    ghost weight = { λ _ number node. node_ticks number node };

    ghost lawful = { Prim.search rules };

    fn choose(&self, a: u64, b: u64) -> u64 {
        a.max(b)
    }

    fn extend(&self, a: u64, b: u64) -> u64 {
        a.saturating_add(b)
    }

    fn weigh(&self, _number: usize, node: &Node) -> u64 {
        u64::from(node.time)
    }
}

// The choice over the paths from a node to a goal is the greatest of their ticks.
pub fn ticks_are_greatest()
    ensures { TicksAreGreatest }
{}

// In a task in range the ticks of a path are the sum of its nodes' times.
#[tactic(auto, using(crate::proofs::Summed::not_capped))]
pub fn ticks_add_up()
    ensures { TicksAddUp }
{}
