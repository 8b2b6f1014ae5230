// The ends of arcs, and the nodes at which arcs of a kind have them.
ghost use Rattle.std.specs.Prelude.{◌≡◌};
ghost use Rattle.task.specs.Deciding.{MetBy, node_at};
ghost use Rattle.sets.specs.Sets.{Marks};

use crate::graph::Graph;
use crate::kinds::ArcKind;
use sets::bit_set::BitSet;
use table::records::Arc;

#[derive(Clone, Copy, Debug, PartialEq, Eq, Drop)]
pub(crate) enum ArcEnd {
    // where it runs out of a node
    Start,
    // where it runs into a node
    Stop,
}

impl ArcEnd {
    // The node at this end of an arc.
    fn of(self, arc: Arc) -> usize
        ensures { result ≡ node_at arc self }
    {
        match self {
            ArcEnd::Start => arc.from as usize,
            ArcEnd::Stop => arc.to as usize,
        }
    }
}

impl Graph<'_> {
    // The nodes at which an arc of the kind has this end.
    pub(crate) fn met_by(&self, kind: ArcKind, end: ArcEnd) -> BitSet
        ensures { Marks (MetBy self.now.nodes.now self.now.arcs.now kind end) result }
    {
        // gathered arc by arc, where a selection would go over all arcs for each node
        let mut met = BitSet::EMPTY;
        for arc in self.arcs {
            if self.is_of_kind(kind, arc.from as usize, arc.to as usize) {
                met = met.with(end.of(*arc));
            }
        }
        met
    }
}
