// What waits and the pass tell (the scheduling part of mod.rs); the definitions are in specs/.
#![tactic(auto)]

use types::kernel::Kernel;
use types::object::ObjectStore;
use types::thread::Thread;
use units::ObjectId;

// What becomes of a blocked thread in a pass.
#[derive(Clone, Copy)]
pub enum Fate {
    Stays,
    // What it waited for is there; the index of its wait.
    Given(u32),
    TimedOut,
    // A sleep is over.
    Slept,
}

// The objects and the threads, which the tries of a pass change.
#[derive(Clone, Copy)]
pub struct Waits {
    pub objects: ObjectStore,
    pub threads: [Thread; 32],
}

// A pass: the state after it, whose context is saved, whose is restored, and whether it switched.
#[derive(Clone, Copy)]
pub struct Passed {
    pub kernel: Kernel,
    pub saved: Option<u32>,
    pub restored: Option<u32>,
    pub switched: bool,
}

// The most handles that `satisfied_now` looks at, whatever a wait may have.
pub const WAIT_AT_ONCE: usize = 8;

// What a wait on a list of handles would find at once: the objects, unused places 0, and where.
#[derive(Clone, Copy)]
pub struct Satisfied {
    pub objects: [ObjectId; WAIT_AT_ONCE],
    pub index: Option<u32>,
}

// What letting go of a mutex would do without a pass.
#[derive(Clone, Copy)]
pub enum Release {
    // Held more than once, it only counts down.
    CountsDown(ObjectId),
    Frees(ObjectId),
}
