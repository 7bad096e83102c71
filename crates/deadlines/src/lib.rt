// The crate is its specs/: laws of what a guest call does to a timed wait, and no code.
#![tactic(auto)]

pub fn no_code() -> u64 {
    0
}
