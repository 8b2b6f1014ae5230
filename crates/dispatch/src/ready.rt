// Which nodes of a job are ready.
ghost use Rattle.std.specs.Prelude.{length};
ghost use Rattle.jobs.specs.Job.{Ready};
ghost use Rattle.sets.specs.Sets.{Marks};
ghost use Rattle.sets.specs.Tests.{Says};
ghost use Rattle.task.specs.Graph.{IsNode, Ranged};
ghost use Rattle.dispatch.specs.Search.{UnderWay, MayStart, Struck};
ghost use Rattle.dispatch.specs.Tables.{task_nodes, task_arcs};

use crate::board::OpenJob;
use crate::job::Job;
use sets::bit_set::BitSet;
use table::records::{Arc, Role};
use task::Task;

// The nodes that are under way, and those of them that may start.
#[derive(Clone, Copy, Drop)]
struct Pending {
    under_way: BitSet,
    may_start: BitSet,
}

// Strikes from `may` each node to which an arc leads from a node in `under`.
fn strike(arcs: &[Arc], under: BitSet, may: BitSet) -> BitSet
    ensures { Marks (Struck arcs.now under may (length arcs.now)) result }
{
    // arc by arc, where a selection would go over all arcs for each node
    let mut left = may;
    for arc in arcs {
        if under.has(arc.from as usize) && left.has(arc.to as usize) {
            left = left.without(arc.to as usize);
        }
    }
    left
}

impl OpenJob<'_> {
    // Whether a node is taken and has not ended.
    fn is_under_way(&self, v: usize) -> bool
        requires { IsNode (task_nodes self.now.task.now) v }
        ensures { Says result (UnderWay (task_nodes self.now.task.now) self.now.job.now.states v) }
    {
        self.job.has_entered(self.task.nodes()[v].region) && !self.job.has_ended(v)
    }

    // Whether a node that is under way may start: a closing waits for its opening.
    fn may_start(&self, v: usize) -> bool
        requires { UnderWay (task_nodes self.now.task.now) self.now.job.now.states v }
        ensures { Says result (MayStart (task_nodes self.now.task.now) self.now.job.now.states v) }
    {
        match self.task.nodes()[v].role {
            Role::Closing { mate } => self.job.has_ended(mate as usize),
            _ => true,
        }
    }

    // The nodes that are under way, and those that may start, in one pass: with a selection for each, a tick of 16 jobs with
    // 64 nodes took a fifth longer.
    fn pending(&self) -> Pending
        ensures under { Marks (UnderWay (task_nodes self.now.task.now) self.now.job.now.states) result.under_way }
        ensures ranged { Ranged (task_nodes self.now.task.now) (task_arcs self.now.task.now) }
        ensures may { Marks (MayStart (task_nodes self.now.task.now) self.now.job.now.states) result.may_start }
    {
        let mut under_way = BitSet::EMPTY;
        let mut may_start = BitSet::EMPTY;
        for v in 0..self.task.nodes().len() {
            if self.is_under_way(v) {
                under_way = under_way.with(v);
                if self.may_start(v) {
                    may_start = may_start.with(v);
                }
            }
        }
        Pending {
            under_way,
            may_start,
        }
    }

    // Its nodes that are ready.
    pub fn ready_nodes(&self) -> BitSet
        ensures { Marks (Ready (task_nodes self.now.task.now) (task_arcs self.now.task.now) self.now.job.now.states) result }
    {
        let Pending {
            under_way,
            may_start,
        } = self.pending();
        strike(self.task.arcs(), under_way, may_start)
    }
}

// The nodes of a job of the task that are ready.
pub fn ready_nodes(task: &Task, job: &Job) -> BitSet
    ensures { Marks (Ready (task_nodes task.now) (task_arcs task.now) job.now.states) result }
{
    OpenJob { task, job }.ready_nodes()
}
