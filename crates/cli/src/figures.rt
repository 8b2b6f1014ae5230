// The figures of a task: its use of a core, a longest path, and the branches with the worst total.
use crate::wording::write_list;
use std::{fmt, iter};
use table::records::Role;
use task::Task;
use workload::measures::{lengths_from, nodes_taken, worst_settling};

// The share of one core that a task of this total and period needs at worst.
#[derive(Clone, Copy, Debug, PartialEq, Eq, Drop)]
pub struct Share {
    pub total: u64,
    pub period: u32,
}

impl Share {
    // In tenths of a percent.
    pub(crate) fn tenths(&self) -> u64 {
        self.total.saturating_mul(1000) / u64::from(self.period).max(1)
    }
}

impl fmt::Display for Share {
    fn fmt<W: fmt::Write>(&self, f: &mut fmt::Formatter<W>) -> fmt::Result {
        let tenths = self.tenths();
        write!(f, "{}.{}%", tenths / 10, tenths % 10)
    }
}

// The nodes of a longest path.
#[derive(Clone, Copy, Drop)]
pub struct LongestPath<'a>(pub &'a Task);

impl fmt::Display for LongestPath<'_> {
    fn fmt<W: fmt::Write>(&self, f: &mut fmt::Formatter<W>) -> fmt::Result {
        let lengths = Lengths::of(self.0);
        let path = iter::successors(Some(lengths.start()), |&at| lengths.next(at));
        // a task has at most 64 nodes
        write_list(f, path.take(64), " -> ")
    }
}

// The greatest length of a path from each node of a task.
#[derive(Drop)]
struct Lengths<'a> {
    task: &'a Task,
    by_node: [u64; 64],
}

impl<'a> Lengths<'a> {
    fn of(task: &'a Task) -> Lengths<'a> {
        Lengths {
            task,
            by_node: lengths_from(task),
        }
    }

    fn at(&self, v: usize) -> u64 {
        self.by_node.get(v).copied().unwrap_or(0)
    }

    // The first node with the greatest length.
    fn start(&self) -> usize {
        let lengths = self.by_node.iter().enumerate();
        // the last of equals is taken
        let start = lengths.rev().max_by_key(|(_, length)| **length);
        start.map_or(0, |(v, _)| v)
    }

    // A node that an arc leads to from `at` and whose length is what is left after `at`.
    fn next(&self, at: usize) -> Option<usize> {
        let node = self.task.nodes().get(at)?;
        let left = self.at(at).saturating_sub(u64::from(node.time));
        let mut targets = self
            .task
            .arcs()
            .iter()
            .filter(|arc| usize::from(arc.from) == at)
            .map(|arc| usize::from(arc.to));
        targets.find(|&to| self.at(to) == left)
    }
}

// The branches that a settling with the greatest total takes.
#[derive(Clone, Copy, Drop)]
pub struct WorstBranches<'a>(pub &'a Task);

impl fmt::Display for WorstBranches<'_> {
    fn fmt<W: fmt::Write>(&self, f: &mut fmt::Formatter<W>) -> fmt::Result {
        let picks = worst_settling(self.0).picks;
        let taken = nodes_taken(self.0, &picks);
        let mut picked = self
            .0
            .nodes()
            .iter()
            .zip(picks.iter())
            .enumerate()
            .filter(|(v, (node, _))| taken.has(*v) && node.role == Role::Opening)
            .map(|(opening, (_, branch))| Picked {
                branch: *branch,
                opening,
            })
            .peekable();
        if picked.peek().is_none() {
            return f.write_str("no branches");
        }
        write_list(f, picked, ", ")
    }
}

// The branch that is taken of an opening.
#[derive(Clone, Copy, Debug, PartialEq, Eq, Drop)]
struct Picked {
    branch: u8,
    opening: usize,
}

impl fmt::Display for Picked {
    fn fmt<W: fmt::Write>(&self, f: &mut fmt::Formatter<W>) -> fmt::Result {
        write!(f, "branch {} of {}", self.branch, self.opening)
    }
}
