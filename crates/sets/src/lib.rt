// Sets of small numbers, and of arcs between them, as bits.
#![tactic(auto)]

pub mod arc_set;
pub mod bit_set;
pub mod members;
