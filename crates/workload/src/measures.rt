// The two numbers of a task, and a settling that makes the worst total.
ghost use Rattle.sets.specs.Sets.{Marks};
ghost use Rattle.task.specs.Held.{nodes_of, arcs_of};
ghost use Rattle.workload.specs.Measures.{IsGreatestLength, IsGreatestTotal, Lengths};
ghost use Rattle.workload.specs.Worst.{TakenNode, pick_of, Worst as WorstSettlement};

use crate::length::{lengths, longest};
use crate::settlement::{Picks, Settlement};
use crate::taken::taken;
use crate::worst::worst_of;
use sets::bit_set::BitSet;
use task::Task;

// The greatest length of a path and the greatest total of a task, over all settlings of its branches.
pub fn length_and_total(task: &Task) -> (u64, u64)
    ensures length { IsGreatestLength (nodes_of task.now.table) (arcs_of task.now.table) result.0 }
    ensures total { IsGreatestTotal (nodes_of task.now.table) result.1 }
{
    let graph = task.graph();
    (longest(&graph), worst_of(graph.nodes).total)
}

// By the node's number, the greatest length of a path from each node on.
pub fn lengths_from(task: &Task) -> [u64; 64]
    ensures { Lengths (nodes_of task.now.table) (arcs_of task.now.table) result }
{
    lengths(&task.graph())
}

// A settling with the greatest total, the first branch of the heaviest at each opening.
pub fn worst_settling(task: &Task) -> Settlement
    ensures { WorstSettlement (nodes_of task.now.table) result }
{
    worst_of(task.nodes())
}

// The nodes that the picks take.
pub fn nodes_taken(task: &Task, picks: &Picks) -> BitSet
    ensures { Marks (TakenNode (nodes_of task.now.table) (pick_of picks.now)) result }
{
    taken(task.nodes(), picks)
}
