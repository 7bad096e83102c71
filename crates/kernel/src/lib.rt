// The kernel's own operations on the state (mod.rs).
#![tactic(auto)]

pub mod fresh;
pub mod next_event;
