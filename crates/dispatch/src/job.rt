// An open job of a task.
ghost use Rattle.std.specs.Prelude.{◌≡◌, ◌+◌, ◌-◌, ◌^◌, min, length};
ghost use Rattle.jobs.specs.Job.{state, HasEnded, Entered};
ghost use Rattle.sets.specs.Tests.{Says};
ghost use Rattle.dispatch.specs.Tables.{new_job, no_number};

use jobs::node_state::NodeState;
use sets::bit_set::BitSet;
use table::records::Region;

// How far it is with each node, where the places past the task's nodes stay untouched; the nodes that it had on a core
// in the tick closed last; and the ticks closed since its release, as many as the number holds.
#[derive(Clone, Copy, Debug, PartialEq, Eq, Drop)]
pub struct Job {
    pub states: [NodeState; 64],
    pub placed: BitSet,
    pub age: u32,
}

impl Job {
    // A job at its release.
    pub fn new() -> Job
        ensures { result ≡ new_job }
    {
        Job {
            states: [NodeState::Untouched; 64],
            placed: BitSet::EMPTY, // of this job, whatever its slot had before
            age: 0,
        }
    }

    // The job one tick later, if none of its nodes had a core.
    pub(crate) fn aged(&self) -> Job
        ensures states { result.states ≡ self.now.states }
        ensures sized { length result.states ≡ 64 }
        ensures placed { result.placed ≡ no_number }
        ensures age { result.age ≡ min (self.now.age + 1) (2 ^ 32 - 1) }
    {
        Job {
            placed: BitSet::EMPTY,
            age: self.age.saturating_add(1),
            ..*self
        }
    }

    // How far it is with a node.
    pub(crate) fn state_of(&self, v: usize) -> NodeState
        ensures { result ≡ state self.now.states v }
    {
        self.states.get(v).copied().unwrap_or(NodeState::Untouched)
    }

    // Whether a node has ended.
    pub(crate) fn has_ended(&self, v: usize) -> bool
        ensures { Says result (HasEnded self.now.states v) }
    {
        matches!(self.state_of(v), NodeState::Ended(_))
    }

    // Whether it has come to a region.
    pub(crate) fn has_entered(&self, region: Region) -> bool
        ensures { Says result (Entered self.now.states region) }
    {
        match region {
            Region::Top => true,
            Region::Branch { home, branch } => {
                matches!(self.state_of(home as usize), NodeState::Ended(picked) if picked == branch)
            }
        }
    }
}
