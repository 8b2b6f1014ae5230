// The tick engine: which nodes of the open jobs are ready, which node gets which core, and what the outcomes of a tick bring.
#![tactic(auto)]

pub mod board;
pub mod closing;
pub mod job;
pub mod outcome;
pub mod placing;
pub mod ready;
pub mod spot;
pub mod theorems;
