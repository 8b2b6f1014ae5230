// The commands of the program, and the words in which it answers.
#![tactic(auto)]

pub mod commands;
pub mod figures;
mod planning;
pub mod reports;
pub mod run;
pub mod sentences;
mod wording;
