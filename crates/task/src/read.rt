// Tasks from tables, and what they hold.
ghost use Rattle.std.specs.Prelude.{◌≡◌};
ghost use Rattle.table.specs.Whole.{Lawful};
ghost use Rattle.task.specs.declared.held.Refusal.TheVariants.{Unsound, Misshapen};
ghost use Rattle.task.specs.Described.{Told, records, refusal_number, refusal_added};
ghost use Rattle.task.specs.Held.{nodes_of, arcs_of, LawfulTask};

use crate::graph::Graph;
use crate::held::{Refusal, Task};
use crate::rules::Broken;
use table::fault::Fault;
use table::records::{Arc, Node, Table, Timing};

// The graph of a table in range.
fn graph_of(table: &Table) -> Graph<'_>
    requires { Lawful table.now.timing (nodes_of table.now) (arcs_of table.now) }
    ensures nodes { result.nodes.now ≡ nodes_of table.now }
    ensures arcs { result.arcs.now ≡ arcs_of table.now }
{
    Graph {
        nodes: table.nodes.as_slice(),
        arcs: table.arcs.as_slice(),
    }
}

impl Task {
    // The task that a table describes, or the first cause for which it describes none.
    pub fn read(bytes: &[u8]) -> Result<Task, Refusal>
        ensures { Told bytes.now (records result) }
    {
        let table = table::read(bytes)?;
        graph_of(&table).check_shape()?;
        Ok(Task { table })
    }

    pub fn timing(&self) -> Timing
        ensures { result ≡ self.now.table.timing }
    {
        self.table.timing
    }

    // The nodes; and whoever holds a task knows that it is lawful.
    pub fn nodes(&self) -> &[Node]
        ensures value { result.now ≡ nodes_of self.now.table }
        ensures lawful { LawfulTask self.now.table }
    {
        self.table.nodes.as_slice()
    }

    pub fn arcs(&self) -> &[Arc]
        ensures { result.now ≡ arcs_of self.now.table }
    {
        self.table.arcs.as_slice()
    }

    // The nodes with the arcs between them.
    pub fn graph(&self) -> Graph<'_>
        ensures nodes { result.nodes.now ≡ nodes_of self.now.table }
        ensures arcs { result.arcs.now ≡ arcs_of self.now.table }
        ensures lawful { LawfulTask self.now.table }
    {
        graph_of(&self.table)
    }
}

impl From<Fault> for Refusal {
    ghost from_gives = { λ fault refusal. refusal ≡ Unsound fault };

    fn from(fault: Fault) -> Refusal {
        Self::Unsound(fault)
    }
}

impl From<Broken> for Refusal {
    ghost from_gives = { λ broken refusal. refusal ≡ Misshapen broken };

    fn from(broken: Broken) -> Refusal {
        Self::Misshapen(broken)
    }
}

impl Refusal {
    // The number under which the table is refused.
    pub fn number(&self) -> u8
        ensures { result ≡ refusal_number self.now }
    {
        match self {
            Refusal::Unsound(fault) => fault.number(),
            Refusal::Misshapen(_) => 7,
        }
    }

    // What the refusal adds to its number: the offset of a record, or the number of a rule.
    pub fn added(&self) -> usize
        ensures { result ≡ refusal_added self.now }
    {
        match self {
            Refusal::Unsound(fault) => fault.added(),
            Refusal::Misshapen(broken) => broken.rule.number() as usize,
        }
    }
}
