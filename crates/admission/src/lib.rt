// What a task asks of a plan.
#![tactic(auto)]

ghost use Rattle.admission.specs.Demands.{Demands};
ghost use Rattle.admission.specs.Same.{SameTasksAskTheSame, SameTasksSameBounds};

use bounds::Demand;
use task::Task;
use workload::measures::length_and_total;

// The period and the deadline of a task, its longest path and its greatest total.
pub fn demand_of(task: &Task) -> Demand
    ensures { Demands task.now.table result }
{
    let timing = task.timing();
    let (longest, total) = length_and_total(task);
    Demand::new(timing.period, timing.deadline, longest, total).unwrap()
}

// Tasks that are the same ask for the same, and each for one thing only.
pub fn same_tasks_ask_the_same()
    ensures { SameTasksAskTheSame }
{}

// Plans of tasks that are the same, slot by slot, have the same answer under equal caps.
pub fn same_tasks_same_bounds()
    ensures { SameTasksSameBounds }
{}
