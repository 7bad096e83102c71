// The crate is its specs/: lists of operations and what holds over them, and no code.
#![tactic(auto)]

pub fn no_code() -> u64 {
    0
}
