// What a tick works on.
ghost use Rattle.std.specs.Prelude.{◌≡◌};
ghost use Rattle.dispatch.specs.Tables.{no_tasks, OpenAt};

use crate::job::Job;
use task::Task;

// The tasks and their open jobs, by slot. They are two columns, and no array of pairs, since the laws speak of each alone:
// a tick leaves the tasks as they are, and what was kept is a matter of the jobs.
#[derive(Drop)]
pub struct Board {
    pub tasks: [Option<Task>; 16],
    pub jobs: [Option<Job>; 16],
}

// A task and its open job.
#[derive(Clone, Copy, Drop)]
pub struct OpenJob<'a> {
    pub task: &'a Task,
    pub job: &'a Job,
}

impl Board {
    // No task in any slot.
    pub fn new() -> Board
        ensures { result ≡ no_tasks }
    {
        Board {
            tasks: [None; 16],
            jobs: [None; 16],
        }
    }

    // The task of a slot and its open job, where there are both.
    pub fn open(&self, slot: usize) -> Option<OpenJob<'_>>
        ensures { OpenAt self.now.tasks self.now.jobs slot result }
    {
        open_in(&self.tasks, &self.jobs, slot)
    }
}

// The task of a slot and its open job, where there are both, in columns that need not be a board's.
pub(crate) fn open_in<'a>(
    tasks: &'a [Option<Task>; 16],
    jobs: &'a [Option<Job>; 16],
    slot: usize,
) -> Option<OpenJob<'a>>
    ensures { OpenAt tasks.now jobs.now slot result }
{
    let task = tasks.get(slot)?.as_ref()?;
    let job = jobs.get(slot)?.as_ref()?;
    Some(OpenJob { task, job })
}
