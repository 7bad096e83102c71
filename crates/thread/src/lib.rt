// Threads: making, ending, and the ends of waits (thread.rs, and the thread part of mod.rs).
#![tactic(auto)]

pub mod create;
pub mod end;
pub mod places;
pub mod priority;
pub mod thread;
