// Guest calls on mutexes, semaphores and events, in the block (svc.rs).
#![tactic(auto)]

pub mod event;
pub mod mutex;
pub mod semaphore;
