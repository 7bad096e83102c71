// What is asked of a block, read where it lies: a table by value would be copied.
#![tactic(auto)]

pub mod event;
pub mod open;
