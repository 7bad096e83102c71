// Guest calls on threads, in the block.
#![tactic(auto)]

pub mod change;
pub mod create;
pub mod exit;
pub mod priority;
pub mod sleep;
