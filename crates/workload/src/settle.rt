// The picks with the greatest total.
ghost use Rattle.workload.specs.Nested.{Nested};
ghost use Rattle.workload.specs.Worst.{WorstPicks};

use crate::settlement::Picks;
use crate::weights::Weights;
use table::records::Node;

// From the last node to the first, picks the heaviest branch of each opening: a node adds its time and the weight of that
// branch to the branch in which it lies. A node that is no opening has no branches, so nothing is picked there.
pub(crate) fn settle(nodes: &[Node]) -> Picks
    requires { Nested nodes.now }
    ensures { WorstPicks nodes.now result }
{
    let mut weights = Weights::new();
    let mut picks: Picks = [0; 64];
    for (v, node) in nodes.iter().enumerate().rev() {
        let (pick, weight) = weights.heaviest(v);
        picks[v] = pick as u8;
        let gain = u64::from(node.time) + weight;
        weights.add(node.region, gain);
    }
    picks
}
