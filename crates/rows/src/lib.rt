// One record of a table of a block, read and written where it lies, so that a call copies no table.
#![tactic(auto)]

pub mod read;
pub mod write;
