// The crate is its specs/: laws that each primitive keeps a state sound, and no code.
#![tactic(auto)]

pub fn no_code() -> u64 {
    0
}
