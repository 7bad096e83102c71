// The calls on timers, in the block where it lies.
#![tactic(auto)]

pub mod caught;
mod set;
pub mod timers;
