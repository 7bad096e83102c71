// Objects of the block: made, found by a handle, changed where they lie.
#![tactic(auto)]

pub mod change;
pub mod create;
pub mod open;
