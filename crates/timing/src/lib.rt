// The crate is its specs/: laws of what waits, the choice of a pass and timers do over time, and no code.
#![tactic(auto)]

pub fn no_code() -> u64 {
    0
}
