// Objects, handles, records and kept objects (object.rs, and what mod.rs keeps of objects).
#![tactic(auto, using(crate::proofs::Laws::steps))]

pub mod handles;
pub mod kept;
pub mod store;
pub mod waiters;
