// Tasks as conditional parallel graphs, and the rules of their shape.
#![tactic(auto)]

mod arcs;
mod branches;
mod ends;
mod graph;
mod held;
mod homes;
mod kinds;
mod mates;
mod reach;
mod read;
mod retime;
pub mod rules;
mod shape;
#[cfg(test)]
mod tests;
mod wiring;

pub use branches::branches_of;
pub use graph::Graph;
pub use held::{Refusal, Task};
