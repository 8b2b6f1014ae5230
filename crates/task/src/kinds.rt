// The kinds of arcs.
ghost use Rattle.task.specs.Deciding.{OfKind};
ghost use Rattle.task.specs.Graph.{Inner as InnerArc, Entry as EntryArc, Exit as ExitArc, OfAKind};
ghost use Rattle.sets.specs.Tests.{Says};

use crate::graph::Graph;

// An enum, and no test handed over: the definitions speak of the kinds by these names.
#[derive(Clone, Copy, Debug, PartialEq, Eq, Drop)]
pub(crate) enum ArcKind {
    // from unit to unit inside one region
    Inner,
    // from an opening into one of its branches
    Entry,
    // out of a branch to the closing whose mate is the home
    Exit,
}

impl Graph<'_> {
    fn is_inner(&self, u: usize, v: usize) -> bool
        ensures { Says result (InnerArc self.now.nodes.now u v) }
    {
        self.side_by_side(u, v) && self.ends_unit(u) && self.begins_unit(v)
    }

    fn is_entry(&self, u: usize, v: usize) -> bool
        ensures { Says result (EntryArc self.now.nodes.now u v) }
    {
        self.is_opening(u) && self.begins_unit(v) && self.lies_under(v, u)
    }

    fn is_exit(&self, u: usize, v: usize) -> bool
        ensures { Says result (ExitArc self.now.nodes.now u v) }
    {
        // a match: what a closure answers here, a proof knows only by a clause of the closure's own
        match self.home(u) {
            Some(home) => self.ends_unit(u) && self.closes(v, home),
            None => false,
        }
    }

    // Whether an arc from u to v is of the kind.
    pub(crate) fn is_of_kind(&self, kind: ArcKind, u: usize, v: usize) -> bool
        ensures { Says result (OfKind self.now.nodes.now kind u v) }
    {
        match kind {
            ArcKind::Inner => self.is_inner(u, v),
            ArcKind::Entry => self.is_entry(u, v),
            ArcKind::Exit => self.is_exit(u, v),
        }
    }

    // Whether an arc from u to v is of any kind.
    pub(crate) fn is_of_a_kind(&self, u: usize, v: usize) -> bool
        ensures { Says result (OfAKind self.now.nodes.now u v) }
    {
        self.is_inner(u, v) || self.is_entry(u, v) || self.is_exit(u, v)
    }
}
