// What the outcomes of a tick bring to the open jobs.
ghost use Rattle.std.specs.Prelude.{◌≡◌, ℕ, ◌<◌, ◌≤◌, length, Some, None, Ok, Err, MatchOption, ◌≢◌};
ghost use Rattle.jobs.specs.Job.{IsEnded, JobEnded, ticks, next};
ghost use Rattle.sets.specs.Sets.{Has, Marks};
ghost use Rattle.sets.specs.Tests.{Says, FailsFirst, Tried};
ghost use Rattle.table.specs.declared.records.Role.TheVariants.{Opening};
ghost use Rattle.task.specs.Graph.{BranchesFew, HasBranch, role as role_at};
ghost use Rattle.dispatch.specs.Closing.{Right, RightOn, AllRight, Moved, Closed};
ghost use Rattle.dispatch.specs.Moves.{said, EndsFitly, Fits, RightInSlot, Suits, MovesTo, Leaves};
ghost use Rattle.dispatch.specs.Spots.{spot_at, spot as spot_told};
ghost use Rattle.dispatch.specs.Tables.{task_nodes, task_arcs};

use crate::board::{Board, OpenJob, open_in};
use crate::job::Job;
use crate::outcome::Outcome;
use crate::spot::{Spot, Spots};
use jobs::node_state::NodeState;
use sets::bit_set::BitSet;
use table::records::{Node, Role};
use task::{Task, branches_of};

// Whether a node with this role and these branches may end with the branch.
fn may_end(role: Role, branches: BitSet, branch: u8) -> bool
    ensures { Says result (EndsFitly role branches branch) }
{
    match role {
        Role::Opening => branches.has(branch as usize),
        _ => branch == 0,
    }
}

// The ticks that a node has run, unless it has ended.
fn ticks_of(state: NodeState) -> Option<u32>
    ensures { MatchOption result (IsEnded state) (λ t. (IsEnded state → ⊥) × (t ≡ ticks state)) }
{
    match state {
        NodeState::Untouched => Some(0),
        NodeState::Running(ticks) => Some(ticks),
        NodeState::Ended(_) => None,
    }
}

// The state of a node after an outcome: none where the outcome is not right.
fn next_state(
    state: NodeState,
    outcome: Outcome,
    role: Role,
    time: u32,
    branches: BitSet,
) -> Option<NodeState>
    ensures { MatchOption result (Fits role time branches state (said outcome) → ⊥) (λ s. Fits role time branches state (said outcome) × (s ≡ next (said outcome) state)) }
{
    let ticks = ticks_of(state)?;
    match outcome {
        Outcome::GoesOn => {
            let ran = ticks.saturating_add(1);
            (ran < time).then_some(NodeState::Running(ran))
        }
        Outcome::Ends { branch } => {
            may_end(role, branches, branch).then_some(NodeState::Ended(branch))
        }
    }
}

// The branches that a node has, if it is an opening.
fn branches_at(nodes: &[Node], v: usize) -> BitSet
    requires { (v < length nodes.now) × (BranchesFew nodes.now) }
    ensures { role_at nodes.now v ≡ Opening → Marks (HasBranch nodes.now v) result }
{
    match nodes[v].role {
        Role::Opening => branches_of(nodes, v),
        _ => BitSet::EMPTY,
    }
}

// What a core runs.
fn spot_on(spots: &Spots, core: usize) -> Option<Spot>
    ensures { result ≡ spot_at spots.now core }
{
    spots.get(core).copied().flatten()
}

// The node of the slot that a core runs.
fn node_in(spot: Option<Spot>, slot: u8) -> Option<u8>
    ensures { elim result [ Some n ↦ spot ≡ Some (spot_told slot n) | None ↦ ((n : ℕ) → spot ≢ Some (spot_told slot n)) ] }
{
    match spot {
        Some(spot) if spot.slot == slot => Some(spot.node),
        _ => None,
    }
}

impl OpenJob<'_> {
    // The state of a node after an outcome: none where the outcome is not right.
    fn state_after(&self, v: usize, outcome: Outcome) -> Option<NodeState>
        ensures few { length (task_nodes self.now.task.now) ≤ 64 }
        ensures moves { MovesTo (task_nodes self.now.task.now) self.now.job.now.states v (said outcome) result }
    {
        let nodes = self.task.nodes();
        let node = nodes.get(v)?;
        next_state(
            self.job.state_of(v),
            outcome,
            node.role,
            node.time,
            branches_at(nodes, v),
        )
    }

    // Whether the outcome is right for a node.
    fn is_right(&self, v: usize, outcome: Outcome) -> bool
        ensures { Says result (Right (task_nodes self.now.task.now) self.now.job.now.states v (said outcome)) }
    {
        self.state_after(v, outcome).is_some()
    }

    // The job one tick later, in its slot. The spots are the controller's and the outcomes a caller's, so that they meet only here and in
    // the calls that lead here.
    fn moved(&self, slot: u8, spots: &Spots, outcomes: &[u8]) -> Job
        requires { RightInSlot (task_nodes self.now.task.now) self.now.job.now.states slot spots.now outcomes.now }
        ensures { Moved spots.now outcomes.now slot self.now.job.now result }
    {
        // a plain loop: each turn changes both the states and what was placed
        let mut later = self.job.aged();
        for core in 0..outcomes.len() {
            if let Some(node) = node_in(spot_on(spots, core), slot) {
                let v = node as usize;
                if let Some(state) = self.state_after(v, Outcome::from(outcomes[core])) {
                    later.states[v] = state;
                    later.placed = later.placed.with(v);
                }
            }
        }
        later
    }

    // Whether it has ended: its last unit at the top ends with the last node.
    fn is_over(&self) -> bool
        ensures { Says result (JobEnded (task_nodes self.now.task.now) (task_arcs self.now.task.now) self.now.job.now.states) }
    {
        self.job.has_ended(self.task.nodes().len() - 1)
    }

    // What a tick leaves of the job in its slot: none where it ended.
    fn after(&self, slot: u8, spots: &Spots, outcomes: &[u8]) -> Option<Job>
        requires { RightInSlot (task_nodes self.now.task.now) self.now.job.now.states slot spots.now outcomes.now }
        ensures { Leaves self.now.task.now self.now.job.now spots.now outcomes.now slot result }
    {
        let later = self.moved(slot, spots, outcomes);
        let open = OpenJob {
            task: self.task,
            job: &later,
        };
        if open.is_over() { None } else { Some(later) }
    }
}

// Whether the outcome is right for what a core ran.
fn is_right(
    tasks: &[Option<Task>; 16],
    jobs: &[Option<Job>; 16],
    spot: Option<Spot>,
    outcome: Outcome,
) -> bool
    ensures { Says result (Suits tasks.now jobs.now spot (said outcome)) }
{
    match spot {
        None => matches!(outcome, Outcome::GoesOn),
        Some(Spot { slot, node }) => open_in(tasks, jobs, slot as usize).is_some_and(
            |open| open.is_right(node as usize, outcome),
        ),
    }
}

// The first core whose outcome is not right.
pub fn first_wrong(
    tasks: &[Option<Task>; 16],
    jobs: &[Option<Job>; 16],
    spots: &Spots,
    outcomes: &[u8],
) -> Option<usize>
    ensures { Tried (RightOn tasks.now jobs.now spots.now outcomes.now) (length outcomes.now) result }
{
    (0..outcomes.len()).find(|&core| !is_right(
        tasks,
        jobs,
        spot_on(spots, core),
        Outcome::from(outcomes[core]),
    ))
}

// Closes a tick whose outcomes are all right: moves the open jobs, lets those go that ended, and answers in which slots.
pub fn close(
    tasks: &[Option<Task>; 16],
    jobs: &mut [Option<Job>; 16],
    spots: &Spots,
    outcomes: &[u8],
) -> u16
    requires { AllRight tasks.now jobs.old spots.now outcomes.now }
    ensures { Closed tasks.now jobs.old spots.now outcomes.now result jobs.new }
{
    // a plain loop: each turn changes both the jobs and what is told
    let mut ended = 0;
    for slot in 0..16u8 {
        let at = slot as usize;
        if let Some(open) = open_in(tasks, jobs, at) {
            match open.after(slot, spots, outcomes) {
                Some(later) => jobs[at] = Some(later),
                None => {
                    jobs[at] = None;
                    ended |= 1 << slot;
                }
            }
        }
    }
    ended
}

impl Board {
    // The first core whose outcome is not right.
    pub fn first_wrong(&self, spots: &Spots, outcomes: &[u8]) -> Option<usize>
        ensures { Tried (RightOn self.now.tasks self.now.jobs spots.now outcomes.now) (length outcomes.now) result }
    {
        first_wrong(&self.tasks, &self.jobs, spots, outcomes)
    }

    // Closes a tick whose outcomes are all right: moves the open jobs, lets those go that ended, and answers in which slots.
    pub fn close(&mut self, spots: &Spots, outcomes: &[u8]) -> u16
        requires { AllRight self.old.tasks self.old.jobs spots.now outcomes.now }
        ensures tasks { self.new.tasks ≡ self.old.tasks }
        ensures closed { Closed self.old.tasks self.old.jobs spots.now outcomes.now result self.new.jobs }
    {
        close(&self.tasks, &mut self.jobs, spots, outcomes)
    }

    // Closes a tick, or tells the first core whose outcome is not right, and then nothing has changed.
    pub fn try_close(&mut self, spots: &Spots, outcomes: &[u8]) -> Result<u16, usize>
        ensures { elim result [
          | Ok mask ↦ AllRight self.old.tasks self.old.jobs spots.now outcomes.now × Closed self.old.tasks self.old.jobs spots.now outcomes.now mask self.new.jobs × (self.new.tasks ≡ self.old.tasks)
          | Err core ↦ FailsFirst (RightOn self.old.tasks self.old.jobs spots.now outcomes.now) (length outcomes.now) core × (self.new ≡ self.old)
        ] }
    {
        match self.first_wrong(spots, outcomes) {
            Some(core) => Err(core),
            None => Ok(self.close(spots, outcomes)),
        }
    }
}
