// The crate is its specs/: laws that each guest call that can block keeps a state sound, and no code.
#![tactic(auto)]

pub fn no_code() -> u64 {
    0
}
