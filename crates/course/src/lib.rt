// The crate is its specs/: demand 3 over lists of operations on a state, and no code.
#![tactic(auto)]

pub fn no_code() -> u64 {
    0
}
