// The crate is its specs/: worked cases as one table, held to the definitions by one statement, and no code.
#![tactic(auto)]

pub fn no_code() -> u64 {
    0
}
