// Signals, pulses and timers (the part of mod.rs that changes what an object says).
#![tactic(auto)]

pub mod catch_up;
pub mod event;
pub mod pulse;
pub mod timer;
