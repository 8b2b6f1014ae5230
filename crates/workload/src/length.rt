// The length of a longest path.
ghost use Rattle.workload.specs.Greatest.{GreatestOf};
ghost use Rattle.workload.specs.Measures.{IsLongestPath, Lengths};

use paths::ticks::Ticks;
use paths::walk::walk;
use sets::bit_set::BitSet;
use task::Graph;

// The greatest of the values, and 0 of none.
pub(crate) fn greatest(values: &[u64]) -> u64
    ensures { GreatestOf values.now result }
{
    values.iter().copied().max().unwrap_or(0)
}

// The greatest length of a path from each node on.
pub(crate) fn lengths(graph: &Graph<'_>) -> [u64; 64]
    ensures { Lengths graph.now.nodes.now graph.now.arcs.now result }
{
    let mut lengths = [0u64; 64];
    walk(
        &Ticks,
        graph.nodes,
        graph.arcs,
        BitSet::below(graph.nodes.len()),
        &mut lengths,
    );
    lengths
}

// Every path begins at some node.
pub(crate) fn longest(graph: &Graph<'_>) -> u64
    ensures { IsLongestPath graph.now.nodes.now graph.now.arcs.now result }
{
    greatest(&lengths(graph))
}
