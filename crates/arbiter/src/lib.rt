// ArbitrateAddress (svc.rs): what it does to one thread and to one chain of records.
#![tactic(auto)]

pub mod kind;
pub mod park;
pub mod wake;
