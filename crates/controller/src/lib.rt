// The controller: tasks in slots, their bounds, releases and ticks.
#![tactic(auto)]

mod checks;
mod controller;
mod edits;
mod precedence;
mod refusal;
mod tables;
mod ticks;

pub use controller::Controller;
pub use refusal::Refusal;
pub use tables::Tables;
