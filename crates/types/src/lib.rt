// The kernel's state by value, in the original's names.
#![tactic(auto)]

pub mod kernel;
pub mod list;
pub mod object;
pub mod refusal;
pub mod sync;
pub mod thread;
