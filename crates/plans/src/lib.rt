// Plan files: cores, an order and tasks, as a person writes them.
#![tactic(auto)]

mod draft;
mod numerals;
pub mod parse;
pub mod plan;
mod records;
mod statement;
pub mod wanted;
mod words;
