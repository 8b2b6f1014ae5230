// Path algebras, and one walk over a graph that finds the choice over all paths from each node to a goal.
#![tactic(auto)]

pub mod algebra;
pub mod reach;
pub mod ticks;
pub mod walk;
