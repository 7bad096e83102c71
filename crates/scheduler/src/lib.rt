// The pass (`schedule`).
#![tactic(auto)]

pub mod choose;
pub mod run;
