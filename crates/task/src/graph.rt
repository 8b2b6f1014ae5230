// A task's graph: its nodes, and the arcs between them.
ghost use Rattle.std.specs.Prelude.{◌≡◌, ℕ, Some, None, ◌≢◌};
ghost use Rattle.table.specs.declared.records.Role.TheVariants.{Opening, Closing};
ghost use Rattle.task.specs.Graph.{Ranged, role, region, HomeOf, BeginsUnit, EndsUnit};
ghost use Rattle.sets.specs.Tests.{Says};

use table::records::{Arc, Node, Region, Role};

// Nodes and arcs in range. Nodes go by their places; a number that is no node's counts as a plain one at the top.
#[derive(Clone, Copy, Debug, Drop)]
pub struct Graph<'a> {
    pub nodes: &'a [Node],
    pub arcs: &'a [Arc],
    pub ghost ranged: { Ranged nodes.now arcs.now },
}

impl Graph<'_> {
    // The role of a node. What it differs in from `region` is all that it says.
    pub(crate) fn role(&self, v: usize) -> Role
        ensures { result ≡ role self.now.nodes.now v }
    {
        self.nodes.get(v).map_or(Role::Plain, |node| node.role)
    }

    // Where a node lies.
    pub(crate) fn region(&self, v: usize) -> Region
        ensures { result ≡ region self.now.nodes.now v }
    {
        self.nodes.get(v).map_or(Region::Top, |node| node.region)
    }

    // The opening in a branch of which a node lies.
    pub(crate) fn home(&self, v: usize) -> Option<usize>
        ensures { elim result [ Some h ↦ HomeOf self.now.nodes.now v h | None ↦ ((h : ℕ) → HomeOf self.now.nodes.now v h → ⊥) ] }
    {
        match self.region(v) {
            Region::Top => None,
            Region::Branch { home, .. } => Some(home as usize),
        }
    }

    // Whether a node lies in a branch of the opening.
    pub(crate) fn lies_under(&self, v: usize, opening: usize) -> bool
        ensures { Says result (HomeOf self.now.nodes.now v opening) }
    {
        matches!(self.region(v), Region::Branch { home, .. } if home as usize == opening)
    }

    // The opening that a closing closes.
    pub(crate) fn mate(&self, v: usize) -> Option<usize>
        ensures { elim result [ Some o ↦ role self.now.nodes.now v ≡ Closing o | None ↦ ((o : ℕ) → role self.now.nodes.now v ≢ Closing o) ] }
    {
        match self.role(v) {
            Role::Closing { mate } => Some(mate as usize),
            Role::Plain | Role::Opening => None,
        }
    }

    // Whether a node is an opening.
    pub(crate) fn is_opening(&self, v: usize) -> bool
        ensures { Says result (role self.now.nodes.now v ≡ Opening) }
    {
        matches!(self.role(v), Role::Opening)
    }

    // Whether a node is the closing of the opening.
    pub(crate) fn closes(&self, v: usize, opening: usize) -> bool
        ensures { Says result (role self.now.nodes.now v ≡ Closing opening) }
    {
        self.mate(v).is_some_and(|mate| mate == opening)
    }

    // Whether a node may begin a unit: any but a closing.
    pub(crate) fn begins_unit(&self, v: usize) -> bool
        ensures { Says result (BeginsUnit self.now.nodes.now v) }
    {
        self.mate(v).is_none()
    }

    // Whether a node may end a unit: any but an opening.
    pub(crate) fn ends_unit(&self, v: usize) -> bool
        ensures { Says result (EndsUnit self.now.nodes.now v) }
    {
        !self.is_opening(v)
    }

    // Whether two nodes lie in one region.
    pub(crate) fn side_by_side(&self, u: usize, v: usize) -> bool
        ensures { Says result (region self.now.nodes.now u ≡ region self.now.nodes.now v) }
    {
        self.region(u) == self.region(v)
    }
}
