// The records of a table, as they are read.
ghost use Rattle.std.specs.Prelude.{◌≡◌, ◌-◌, [], length, MatchResult};
ghost use Rattle.table.specs.Fields.{Misfits};
ghost use Rattle.table.specs.Format.{size};
ghost use Rattle.table.specs.Steps.{OutAt, PlaceFor, TakesIn};
ghost use Rattle.table.specs.Whole.{held, no_timing};

use crate::fault::{Fault, Misfit};
use crate::fields::{arc_in, node_in, timing_in};
use crate::reader::Part;
use crate::records::{Arc, FixedList, Kind, Node, Region, Role, Table, Timing};

impl Table {
    pub(crate) fn empty() -> Table
        ensures { result ≡ held no_timing [] [] }
    {
        let node = Node {
            role: Role::Plain,
            region: Region::Top,
            time: 0,
        };
        Table {
            timing: Timing {
                period: 0,
                deadline: 0,
            },
            nodes: FixedList::empty(node),
            arcs: FixedList::empty(Arc { from: 0, to: 0 }),
        }
    }

    // Takes in the record of this kind that these fields tell, if it is in range.
    pub(crate) fn store(&mut self, kind: Kind, fields: &[u8]) -> Result<(), Misfit>
        requires { (PlaceFor self.old kind) × (length fields.now ≡ size kind - 4) }
        ensures { MatchResult result (λ _. TakesIn self.old kind fields.now self.new) (Misfits self.old.nodes.len kind fields.now) }
    {
        let nodes = self.nodes.len;
        match kind {
            Kind::OfTask => self.timing = timing_in(fields)?,
            Kind::OfNode => self.nodes.push(node_in(fields, nodes)?),
            Kind::OfArc => self.arcs.push(arc_in(fields, nodes)?),
        }
        Ok(())
    }

    // Takes in the record of this part, if it is in range.
    pub(crate) fn put(&mut self, part: Part) -> Result<(), Fault>
        requires { (PlaceFor self.old part.kind) × (length part.fields.now ≡ size part.kind - 4) }
        ensures { MatchResult result (λ _. TakesIn self.old part.entry.kind part.entry.fields.now self.new) (OutAt part.entry.offset (Misfits self.old.nodes.len part.entry.kind part.entry.fields.now)) }
    {
        let offset = part.offset;
        self.store(part.kind, part.fields)
            .map_err(|misfit| Fault::Range { offset, misfit })
    }
}
