// Branches count up.
ghost use Rattle.std.specs.Prelude.{length};
ghost use Rattle.task.specs.Graph.{BranchesFew, HasBranch};
ghost use Rattle.sets.specs.Sets.{Marks, RunsFromZero};
ghost use Rattle.task.specs.Shape.{CountsUp};
ghost use Rattle.sets.specs.Tests.{Says, Tried};

use crate::graph::Graph;
use sets::bit_set::BitSet;
use table::records::{Node, Region};

// The branches of an opening in which there are nodes. It asks only that branches are few, and goes over the nodes once, where a
// selection would go over them for each branch.
pub fn branches_of(nodes: &[Node], opening: usize) -> BitSet
    requires { BranchesFew nodes.now }
    ensures { Marks (HasBranch nodes.now opening) result }
{
    let mut branches = BitSet::EMPTY;
    for node in nodes {
        match node.region {
            Region::Branch { home, branch } if home as usize == opening => {
                branches = branches.with(branch as usize);
            },
            _ => {},
        }
    }
    branches
}

// Whether a set has 0 and skips no number.
fn runs_from_zero(set: BitSet) -> bool
    ensures { Says result (RunsFromZero set) }
{
    set.has(0) && (0..63).all(|n| !set.has(n + 1) || set.has(n))
}

impl Graph<'_> {
    // Whether the branches of an opening are numbered from 0 and none is skipped.
    fn counts_up(&self, v: usize) -> bool
        ensures { Says result (CountsUp self.now.nodes.now v) }
    {
        !self.is_opening(v) || runs_from_zero(branches_of(self.nodes, v))
    }

    // The first opening without a branch 0, or that skips a branch.
    pub(crate) fn branches_count_up(&self) -> Option<usize>
        ensures { Tried (CountsUp self.now.nodes.now) (length self.now.nodes.now) result }
    {
        (0..self.nodes.len()).find(|&v| !self.counts_up(v))
    }
}
