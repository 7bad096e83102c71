// ArbitrateAddress in the block where it lies.
#![tactic(auto)]

pub mod arbitrate;
pub mod park;
pub mod record;
pub mod wake;
