// The calls that wait on objects, in the block where it lies.
#![tactic(auto)]

pub mod begin_wait;
pub mod handles;
pub mod many;
pub mod near;
pub mod one;
pub mod room;
pub mod taken;
