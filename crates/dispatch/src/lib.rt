// The calls by number.
#![tactic(auto)]

pub mod call;
