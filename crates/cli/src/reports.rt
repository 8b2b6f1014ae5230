// What a table holds, or why it is refused, as lines of text.
use crate::figures::{LongestPath, Share, WorstBranches};
use crate::sentences::Sentence;
use crate::wording::{Count, write_list};
use std::fmt;
use table::records::{Arc, Node, Region, Role};
use task::{Refusal, Task};
use workload::measures::{length_and_total, worst_settling};

// What a file of this name and these bytes says of a task.
#[derive(Clone, Copy, Debug, PartialEq, Eq, Drop)]
pub struct Report<'n, 'b> {
    pub name: &'n str,
    pub bytes: &'b [u8],
}

impl fmt::Display for Report<'_, '_> {
    fn fmt<W: fmt::Write>(&self, f: &mut fmt::Formatter<W>) -> fmt::Result {
        write!(f, "{}: ", self.name)?;
        match Task::read(self.bytes) {
            Ok(task) => {
                writeln!(f, "taken: {}", Summary(&task))?;
                write_figures(f, &task)?;
                write_nodes(f, task.nodes())?;
                write_arcs(f, task.nodes(), task.arcs())
            }
            Err(refusal) => {
                let number = refusal.number();
                let place = match refusal {
                    Refusal::Unsound(_) => "at offset",
                    Refusal::Misshapen(_) => "by rule",
                };
                let added = refusal.added();
                let sentence = Sentence {
                    refusal,
                    bytes: self.bytes,
                };
                writeln!(f, "refused {number} {place} {added}: {sentence}")
            }
        }
    }
}

#[derive(Clone, Copy, Drop)]
struct Summary<'a>(&'a Task);

impl fmt::Display for Summary<'_> {
    fn fmt<W: fmt::Write>(&self, f: &mut fmt::Formatter<W>) -> fmt::Result {
        let timing = self.0.timing();
        write!(
            f,
            "period {}, deadline {}, ",
            timing.period, timing.deadline
        )?;
        let nodes = Count(self.0.nodes().len(), "node");
        let arcs = Count(self.0.arcs().len(), "arc");
        write!(f, "{nodes}, {arcs}, ")?;
        let (length, total) = length_and_total(self.0);
        write!(f, "L {length}, W {total}")
    }
}

fn write_figures<W: fmt::Write>(f: &mut fmt::Formatter<W>, task: &Task) -> fmt::Result {
    let share = Share {
        total: worst_settling(task).total,
        period: task.timing().period,
    };
    writeln!(f, "  use          {share} of one core")?;
    writeln!(f, "  longest path {}", LongestPath(task))?;
    writeln!(f, "  worst total  {}", WorstBranches(task))
}

fn write_nodes<W: fmt::Write>(f: &mut fmt::Formatter<W>, nodes: &[Node]) -> fmt::Result {
    for (number, node) in nodes.iter().enumerate() {
        let role = Part(node.role);
        let lies = Lies(node.region);
        writeln!(
            f,
            "  node {number:>2}  {role:<13}  {lies:<14}  time {:>5}",
            node.time
        )?;
    }
    Ok(())
}

// It fills thirteen columns where it is written with that width.
#[derive(Clone, Copy, Debug, PartialEq, Eq, Drop)]
struct Part(Role);

impl fmt::Display for Part {
    fn fmt<W: fmt::Write>(&self, f: &mut fmt::Formatter<W>) -> fmt::Result {
        match self.0 {
            Role::Plain => f.pad("plain"),
            Role::Opening => f.pad("opening"),
            Role::Closing { mate } => write!(f, "closing of {mate:<2}"),
        }
    }
}

// It fills fourteen columns where it is written with that width.
#[derive(Clone, Copy, Debug, PartialEq, Eq, Drop)]
struct Lies(Region);

impl fmt::Display for Lies {
    fn fmt<W: fmt::Write>(&self, f: &mut fmt::Formatter<W>) -> fmt::Result {
        match self.0 {
            Region::Top => f.pad("top"),
            Region::Branch { home, branch } => write!(f, "branch {branch} of {home:<2}"),
        }
    }
}

// A line for each node that arcs leave.
fn write_arcs<W: fmt::Write>(
    f: &mut fmt::Formatter<W>,
    nodes: &[Node],
    arcs: &[Arc],
) -> fmt::Result {
    let mut label = "arcs";
    // by number, since the nodes themselves are not needed
    for from in 0..nodes.len() {
        let targets = Targets { arcs, from };
        if !targets.is_empty() {
            writeln!(f, "  {label:<4} {from:>2} -> {targets}")?;
            label = "";
        }
    }
    Ok(())
}

// The nodes that the arcs of one node lead to. The arcs are filtered where they are used, since a function cannot answer an iterator
// without its type's name.
#[derive(Clone, Copy, Debug, PartialEq, Eq, Drop)]
struct Targets<'a> {
    arcs: &'a [Arc],
    from: usize,
}

impl Targets<'_> {
    fn is_empty(&self) -> bool {
        !self
            .arcs
            .iter()
            .any(|arc| usize::from(arc.from) == self.from)
    }
}

impl fmt::Display for Targets<'_> {
    fn fmt<W: fmt::Write>(&self, f: &mut fmt::Formatter<W>) -> fmt::Result {
        let leaving = self
            .arcs
            .iter()
            .filter(|arc| usize::from(arc.from) == self.from);
        write_list(f, leaving.map(|arc| arc.to), ", ")
    }
}
