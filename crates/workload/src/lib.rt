// The greatest length and the greatest total of a task over all ways to settle its branchings.
#![tactic(auto)]

mod length;
pub mod measures;
mod settle;
pub mod settlement;
mod taken;
pub mod theorems;
mod weights;
mod worst;
