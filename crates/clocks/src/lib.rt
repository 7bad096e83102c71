// The crate is its specs/: laws of what each guest call does to a timer's clock, and no code.
#![tactic(auto)]

pub fn no_code() -> u64 {
    0
}
