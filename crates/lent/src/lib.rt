// What an export is lent, and what is asked before and after its work; the definitions of the exports are in specs/.
#![tactic(auto)]

pub mod questions;
