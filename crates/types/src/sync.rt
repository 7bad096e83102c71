// Synchronisation primitives (sync.rs).
ghost use Rattle.std.specs.Prelude.{◌≡◌};
ghost use Rattle.types.specs.Sync.{reset_number, reset_from_raw};

use units::Ticks;

// How an event or a timer behaves once a waiter picks it up.
#[derive(Clone, Copy, PartialEq, Eq)]
pub enum ResetType {
    // Releases one waiter and clears itself.
    OneShot,
    // Stays signalled until it is cleared.
    Sticky,
    // Releases what waits on it when signalled and clears, lost if nothing waits.
    Pulse,
}

#[derive(Clone, Copy)]
pub struct Event {
    pub reset_type: ResetType,
    pub signaled: bool,
}

#[derive(Clone, Copy)]
pub struct Mutex {
    pub owner: Option<u32>,
    // How many times the owner has taken it.
    pub lock_count: u32,
}

// Counts are signed words, in two's complement.
#[derive(Clone, Copy)]
pub struct Semaphore {
    pub count: u32,
    pub max_count: u32,
}

#[derive(Clone, Copy)]
pub struct Timer {
    pub reset_type: ResetType,
    pub signaled: bool,
    // When it fires next; none if it is stopped.
    pub fire_at: Option<Ticks>,
    // The period; 0 fires once.
    pub interval: Ticks,
}

#[derive(Clone, Copy)]
pub struct AddressArbiter {
    // The first record of its chain, in order of arrival; 0 ends the chain.
    pub waiters: u32,
}

// What ArbitrateAddress can do.
#[derive(Clone, Copy, PartialEq, Eq)]
pub enum ArbitrationType {
    Signal,
    WaitIfLessThan,
    DecrementAndWaitIfLessThan,
    WaitIfLessThanWithTimeout,
    DecrementAndWaitIfLessThanWithTimeout,
}

impl From<ResetType> for u32 {
    ghost from_gives = { λ r n. n ≡ reset_number r };

    fn from(r: ResetType) -> u32 {
        match r {
            ResetType::OneShot => 0,
            ResetType::Sticky => 1,
            ResetType::Pulse => 2,
        }
    }
}

// Every number but 1 and 2 is one-shot (`from_raw`).
impl From<u32> for ResetType {
    ghost from_gives = { λ value r. r ≡ reset_from_raw value };

    fn from(value: u32) -> ResetType {
        match value {
            1 => ResetType::Sticky,
            2 => ResetType::Pulse,
            _ => ResetType::OneShot,
        }
    }
}
