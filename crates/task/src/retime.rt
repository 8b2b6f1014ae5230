// Tasks with other times.
ghost use Rattle.task.specs.Retimed.{Retimes};

use crate::held::Task;

impl Task {
    // The task with this node's time set anew, where there is such a node and the time is 1 to 65,535.
    pub fn retimed(self, node: usize, time: u32) -> Option<Task>
        ensures { Retimes self.table node time result }
    {
        let mut table = self.table;
        if node >= table.nodes.as_slice().len() || !(1..=65_535).contains(&time) {
            return None;
        }
        table.nodes.items[node].time = time;
        Some(Task { table })
    }
}
