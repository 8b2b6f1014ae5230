// Arcs are lawful.
ghost use Rattle.std.specs.Prelude.{length};
ghost use Rattle.task.specs.Shape.{LawfulArc};
ghost use Rattle.sets.specs.Tests.{Tried};

use crate::graph::Graph;
use sets::arc_set::ArcSet;

impl Graph<'_> {
    // The place of the first arc that is of no kind, or given before.
    pub(crate) fn arcs_are_lawful(&self) -> Option<usize>
        ensures { Tried (LawfulArc self.now.nodes.now self.now.arcs.now) (length self.now.arcs.now) result }
    {
        // a plain loop: it carries along what it has seen
        let mut seen = ArcSet::new();
        for (k, arc) in self.arcs.iter().enumerate() {
            let (u, v) = (arc.from as usize, arc.to as usize);
            if seen.has(u, v) || !self.is_of_a_kind(u, v) {
                return Some(k);
            }
            seen.insert(u, v);
        }
        None
    }
}
