// The worst settling of a task.
ghost use Rattle.workload.specs.Nested.{Nested};
ghost use Rattle.workload.specs.Worst.{Worst as WorstSettlement};

use crate::settle::settle;
use crate::settlement::Settlement;
use crate::taken::{taken, total_of};
use table::records::Node;

// A settling with the greatest total, and that total. That the nodes are nested is asked here and in the two functions called;
// a type for it would be made and taken apart at each.
pub(crate) fn worst_of(nodes: &[Node]) -> Settlement
    requires { Nested nodes.now }
    ensures { WorstSettlement nodes.now result }
{
    let picks = settle(nodes);
    let total = total_of(nodes, taken(nodes, &picks));
    Settlement { picks, total }
}
