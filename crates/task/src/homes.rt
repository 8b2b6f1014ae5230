// Homes are openings.
ghost use Rattle.std.specs.Prelude.{length};
ghost use Rattle.task.specs.Shape.{HomeOpens};
ghost use Rattle.sets.specs.Tests.{Says, Tried};

use crate::graph::Graph;

impl Graph<'_> {
    // Whether a node's home, if it has one, is an opening.
    fn home_opens(&self, v: usize) -> bool
        ensures { Says result (HomeOpens self.now.nodes.now v) }
    {
        // a match: what a closure answers here, a proof knows only by a clause of the closure's own
        match self.home(v) {
            Some(home) => self.is_opening(home),
            None => true,
        }
    }

    // The first node whose home is no opening. Each rule is tried by such a line, which names it and says no more.
    pub(crate) fn homes_are_openings(&self) -> Option<usize>
        ensures { Tried (HomeOpens self.now.nodes.now) (length self.now.nodes.now) result }
    {
        (0..self.nodes.len()).find(|&v| !self.home_opens(v))
    }
}
