// The least bounds of a plan of tasks, under any order of precedence.
#![tactic(auto)]

mod caps;
mod equation;
mod plan;
mod rise;
mod theorems;

pub use plan::{Demand, Plan};
pub use rise::{Passed, least_bounds};
pub use theorems::{bounds_enough, cases_right, same_answer};
