// One first and one last: the ends of regions.
ghost use Rattle.std.specs.Prelude.{length};
ghost use Rattle.task.specs.Deciding.{MayMeet, MeetsOutside, Outermost, FirstNode, LastNode, Within, OneOfEach};
ghost use Rattle.task.specs.Graph.{InRegion, region as region_at};
ghost use Rattle.sets.specs.Sets.{JustOne, Marks};
ghost use Rattle.task.specs.Shape.{HasEndsAt};
ghost use Rattle.sets.specs.Tests.{Says, Tried};

use crate::graph::Graph;
use crate::kinds::ArcKind;
use crate::reach::ArcEnd;
use sets::bit_set::BitSet;
use table::records::Region;

impl Graph<'_> {
    // Whether arcs between units may have this end at a node: a unit is left where it ends, and met where it begins.
    fn may_meet(&self, end: ArcEnd, v: usize) -> bool
        ensures { Says result (MayMeet self.now.nodes.now end v) }
    {
        match end {
            ArcEnd::Start => self.ends_unit(v),
            ArcEnd::Stop => self.begins_unit(v),
        }
    }

    // Whether arcs between units may have this end at a node, and it is not in the set.
    fn meets_outside(&self, end: ArcEnd, set: BitSet, v: usize) -> bool
        ensures { Says result (MeetsOutside self.now.nodes.now end set v) }
    {
        self.may_meet(end, v) && !set.has(v)
    }

    // The nodes that are first in their regions, where arcs stop, or last, where they start.
    pub(crate) fn outermost(&self, end: ArcEnd) -> BitSet
        ensures { Marks (Outermost self.now.nodes.now self.now.arcs.now end) result }
    {
        let met = self.met_by(ArcKind::Inner, end);
        BitSet::select(self.nodes.len(), |v| self.meets_outside(end, met, v))
    }

    // Whether a number is that of a node in the region. The region is asked of together with a set in two functions that call one another.
    fn is_in(&self, region: Region, v: usize) -> bool
        ensures { Says result (InRegion self.now.nodes.now region v) }
    {
        // a match: what a closure answers here, a proof knows only by a clause of the closure's own
        match self.nodes.get(v) {
            Some(node) => node.region == region,
            None => false,
        }
    }

    // The nodes of a set that lie in the region.
    fn within(&self, region: Region, set: BitSet) -> BitSet
        ensures { Marks (Within self.now.nodes.now region set) result }
    {
        // over the numbers of the set, where a selection goes over all nodes, for each node twice
        let mut found = BitSet::EMPTY;
        for v in set {
            if self.is_in(region, v) {
                found = found.with(v);
            }
        }
        found
    }

    // Whether just one node of a set lies in the region.
    fn has_one(&self, region: Region, set: BitSet) -> bool
        ensures { Says result (JustOne (Within self.now.nodes.now region set)) }
    {
        self.within(region, set).only().is_some()
    }

    // Whether just one node of either set lies in the region of v.
    fn has_one_of_each(&self, firsts: BitSet, lasts: BitSet, v: usize) -> bool
        ensures { Says result (OneOfEach self.now.nodes.now firsts lasts (region_at self.now.nodes.now v)) }
    {
        self.has_one(self.region(v), firsts) && self.has_one(self.region(v), lasts)
    }

    // The first node in whose region there is not just one first unit and just one last.
    pub(crate) fn one_first_one_last(&self, firsts: BitSet, lasts: BitSet) -> Option<usize>
        requires firsts { Marks (FirstNode self.now.nodes.now self.now.arcs.now) firsts }
        requires lasts { Marks (LastNode self.now.nodes.now self.now.arcs.now) lasts }
        ensures { Tried (HasEndsAt self.now.nodes.now self.now.arcs.now) (length self.now.nodes.now) result }
    {
        (0..self.nodes.len()).find(|&v| !self.has_one_of_each(firsts, lasts, v))
    }
}
