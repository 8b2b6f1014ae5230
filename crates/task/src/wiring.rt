// Blocks are wired.
ghost use Rattle.std.specs.Prelude.{length};
ghost use Rattle.sets.specs.Sets.{Marks};
ghost use Rattle.task.specs.Deciding.{FirstNode, LastNode};
ghost use Rattle.task.specs.Gates.{Agree, GatesOf, Gated};
ghost use Rattle.task.specs.Shape.{AllHomesAreOpenings, AllMatesPairUp, Wired};
ghost use Rattle.sets.specs.Tests.{Says, Tried};

use crate::graph::Graph;
use crate::kinds::ArcKind;
use crate::reach::ArcEnd;
use sets::bit_set::BitSet;

// The first nodes of regions and those that entry arcs run into; the last nodes and those that exit arcs run out of.
#[derive(Clone, Copy, Debug, PartialEq, Eq, Drop)]
struct Gates {
    firsts: BitSet,
    entered: BitSet,
    lasts: BitSet,
    left: BitSet,
}

// Whether both sets have a number, or neither.
fn agree(a: BitSet, b: BitSet, n: usize) -> bool
    ensures { Says result (Agree a b n) }
{
    a.has(n) == b.has(n)
}

impl Gates {
    // Whether a node of a branch is entered where it is first and left where it is last.
    fn agree_at(&self, v: usize) -> bool
        ensures { Says result (Agree self.now.firsts self.now.entered v × Agree self.now.lasts self.now.left v) }
    {
        agree(self.firsts, self.entered, v) && agree(self.lasts, self.left, v)
    }
}

impl Graph<'_> {
    // The gates of a task, from its first and its last nodes.
    fn gates(&self, firsts: BitSet, lasts: BitSet) -> Gates
        requires firsts { Marks (FirstNode self.now.nodes.now self.now.arcs.now) firsts }
        requires lasts { Marks (LastNode self.now.nodes.now self.now.arcs.now) lasts }
        ensures { GatesOf self.now.nodes.now self.now.arcs.now result }
    {
        Gates {
            firsts,
            entered: self.met_by(ArcKind::Entry, ArcEnd::Stop),
            lasts,
            left: self.met_by(ArcKind::Exit, ArcEnd::Start),
        }
    }

    // Whether a node, if it lies in a branch, is entered where it is first and left where it is last.
    fn is_gated(&self, gates: Gates, v: usize) -> bool
        ensures { Says result (Gated self.now.nodes.now gates v) }
    {
        // a match: what a closure answers here, a proof knows only by a clause of the closure's own
        match self.home(v) {
            Some(_) => gates.agree_at(v),
            None => true,
        }
    }

    // The first node of a branch with an entry or an exit arc too few or too many.
    pub(crate) fn blocks_are_wired(&self, firsts: BitSet, lasts: BitSet) -> Option<usize>
        requires paired { AllHomesAreOpenings self.now.nodes.now × AllMatesPairUp self.now.nodes.now }
        requires firsts { Marks (FirstNode self.now.nodes.now self.now.arcs.now) firsts }
        requires lasts { Marks (LastNode self.now.nodes.now self.now.arcs.now) lasts }
        ensures { Tried (Wired self.now.nodes.now self.now.arcs.now) (length self.now.nodes.now) result }
    {
        let gates = self.gates(firsts, lasts);
        (0..self.nodes.len()).find(|&v| !self.is_gated(gates, v))
    }
}
