// The crate is its specs/: the words of demand 3, and no code.
#![tactic(auto)]

pub fn no_code() -> u64 {
    0
}
