// The walk over a graph from its last node to its first.
ghost use Rattle.std.specs.Prelude.{◌≡◌, ◌+◌, ◌≤◌, length, Some, None};
ghost use Rattle.sets.specs.Sets.{HasArc};
ghost use Rattle.task.specs.Graph.{IsNode, Joined};
ghost use Rattle.paths.specs.Paths.{Leads, Upwards, path_value};
ghost use Rattle.paths.specs.Walks.{SetOfArcs, BestOver, Known, Walked, OneChoice};

use crate::algebra::PathAlgebra;
use sets::arc_set::ArcSet;
use sets::bit_set::BitSet;
use table::records::{Arc, Node};

// The arcs as a set: its rows have the successors of the nodes.
fn set_of(nodes: &[Node], arcs: &[Arc]) -> ArcSet
    requires { Upwards nodes.now (Joined arcs.now) }
    ensures { SetOfArcs arcs.now result }
{
    let mut set = ArcSet::new();
    for arc in arcs {
        set.insert(usize::from(arc.from), usize::from(arc.to));
    }
    set
}

// A graph, and the goals to which its paths lead.
#[derive(Drop)]
struct PathSearch<'a, P: PathAlgebra> {
    algebra: &'a P,
    nodes: &'a [Node],
    after: &'a ArcSet,
    goals: BitSet,
    ghost upwards: { Upwards nodes.now (HasArc after.now) },
}

impl<'a, P: PathAlgebra> PathSearch<'a, P> {
    // The choice of the best value so far, if any, and one more.
    fn joined(&self, best: Option<P::Value>, next: P::Value) -> P::Value
        ensures { result ≡ elim best [ Some x ↦ P.choice self.now.algebra.now x next | None ↦ next ] }
    {
        best.map_or(next, |x| self.algebra.choose(x, next))
    }

    // The choice over the paths from n to a goal, where the values of the nodes after n are known.
    fn best_from(&self, n: usize, found: BitSet, values: &[P::Value]) -> Option<P::Value>
        requires node { IsNode self.now.nodes.now n }
        requires room { length self.now.nodes.now ≤ length values.now }
        requires known { Known (P.choice self.now.algebra.now) (P.extension self.now.algebra.now) (P.weight self.now.algebra.now) self.now.nodes.now (HasArc self.now.after.now) self.now.goals (n + 1) found values.now }
        ensures { BestOver (P.choice self.now.algebra.now) (path_value (P.extension self.now.algebra.now) (P.weight self.now.algebra.now) self.now.nodes.now) (Leads (HasArc self.now.after.now) self.now.nodes.now self.now.goals n) result }
    {
        let weight = self.algebra.weigh(n, &self.nodes[n]);
        let mut best = None;
        for v in self.after.row(n).common(found) {
            best = Some(self.joined(best, self.algebra.extend(weight, values[v])));
        }
        if self.goals.has(n) {
            best = Some(self.joined(best, weight));
        }
        best
    }
}

// The nodes that have a path to a goal; the value of each is written to its place. It asks only that arcs lead upwards, which is
// less than that a task's graph is in range, and goes from the last node to the first, since arcs lead upwards.
pub fn walk<P: PathAlgebra>(
    algebra: &P,
    nodes: &[Node],
    arcs: &[Arc],
    goals: BitSet,
    values: &mut [P::Value],
) -> BitSet
    requires upwards { Upwards nodes.now (Joined arcs.now) }
    requires room { length nodes.now ≤ length values.old }
    ensures { Walked (P.choice algebra.now) (P.extension algebra.now) (P.weight algebra.now) nodes.now arcs.now goals values.old values.new result }
{
    let after = set_of(nodes, arcs);
    let search = PathSearch {
        algebra,
        nodes,
        after: &after,
        goals,
    };
    let mut found = BitSet::EMPTY;
    for n in (0..nodes.len()).rev() {
        if let Some(value) = search.best_from(n, found, values) {
            values[n] = value;
            found = found.with(n);
        }
    }
    found
}

// Which list of the paths is taken, and in which order, does not change the choice over them.
pub fn choice_is_one<P: PathAlgebra>(algebra: &P)
    ensures { OneChoice (P.choice algebra.now) (P.extension algebra.now) (P.weight algebra.now) }
{}
