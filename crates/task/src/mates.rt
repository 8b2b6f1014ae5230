// Mates pair up.
ghost use Rattle.std.specs.Prelude.{length};
ghost use Rattle.task.specs.Graph.{ClosingOf};
ghost use Rattle.sets.specs.Sets.{Marks};
ghost use Rattle.task.specs.Shape.{ClosedOnce, PairsUp};
ghost use Rattle.sets.specs.Tests.{Says, Tried};

use crate::graph::Graph;
use sets::bit_set::BitSet;
use table::records::Role;

impl Graph<'_> {
    // The closings of an opening.
    fn closings_of(&self, opening: usize) -> BitSet
        ensures { Marks (ClosingOf self.now.nodes.now opening) result }
    {
        BitSet::select(self.nodes.len(), |v| self.closes(v, opening))
    }

    // Whether an opening has just one closing, in its own region.
    fn closed_once(&self, opening: usize) -> bool
        ensures { Says result (ClosedOnce self.now.nodes.now opening) }
    {
        // a match: what a closure answers here, a proof knows only by a clause of the closure's own
        match self.closings_of(opening).only() {
            Some(closing) => self.side_by_side(closing, opening),
            None => false,
        }
    }

    // Whether a closing's mate is an opening, and an opening is closed once.
    fn pairs_up(&self, v: usize) -> bool
        ensures { Says result (PairsUp self.now.nodes.now v) }
    {
        match self.role(v) {
            Role::Plain => true,
            Role::Opening => self.closed_once(v),
            Role::Closing { mate } => self.is_opening(mate as usize),
        }
    }

    // The first closing whose mate is no opening, or opening that is not closed once.
    pub(crate) fn mates_pair_up(&self) -> Option<usize>
        ensures { Tried (PairsUp self.now.nodes.now) (length self.now.nodes.now) result }
    {
        (0..self.nodes.len()).find(|&v| !self.pairs_up(v))
    }
}
