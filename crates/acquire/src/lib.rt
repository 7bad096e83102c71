// Whether an object is signalled, and what a wait takes of it (`is_signaled`, `acquire`).
#![tactic(auto)]

ghost use Rattle.std.specs.Prelude.{◌≡◌, ◌+◌, ltb, Some};
ghost use Rattle.laws.specs.Logic.{pick, ◌or◌};
ghost use Rattle.object.specs.Slots.{with_object};
ghost use Rattle.pass.specs.Signal as def;
ghost use Rattle.acquire.specs.Looks.{thread_named, signaled_for};

use types::object::{KObject, Slot};
use types::sync::{Event, Mutex, ResetType, Semaphore, Timer};

#[tactic(auto, using(laws::specs::Logic::and_yes, laws::specs::Logic::and_no))]
fn positive(n: u32) -> bool
    ensures { result ≡ def.positive n }
{
    0 < n.cast_signed()
}

fn mutex_free(m: Mutex, w: u32) -> bool
    ensures { result ≡ def.free_for m.owner w }
{
    m.owner.is_none_or(|u| u == w)
}

// The thread that a thread object names; 32, a place of no thread, for another kind. No option: `is_signaled` takes
// whether that thread is Dead, and a place of no thread counts as Dead, so none is one number more and no case more.
pub fn thread_named(x: KObject) -> u32
    ensures { result ≡ thread_named x }
{
    match x {
        KObject::Thread(u) => u,
        _ => 32,
    }
}

// For a thread w; `gone` tells whether the thread that x names is Dead, so that no table of threads is handed over.
pub fn is_signaled(x: KObject, gone: bool, w: u32) -> bool
    ensures { result ≡ signaled_for x gone w }
{
    match x {
        KObject::Thread(_) => gone,
        KObject::Event(e) => e.signaled,
        KObject::Mutex(m) => mutex_free(m, w),
        KObject::Semaphore(s) => positive(s.count),
        KObject::Timer(t) => t.signaled,
        // What holds no signal is signalled, and so is an object that is not there.
        KObject::Free(_) | KObject::AddressArbiter(_) | KObject::Process | KObject::ResourceLimit =>
            true,
    }
}

// Only a one-shot clears itself.
fn stays_set(r: ResetType, b: bool) -> bool
    ensures { result ≡ def.stays_set r b }
{
    match r {
        ResetType::OneShot => false,
        ResetType::Sticky | ResetType::Pulse => b,
    }
}

// `acquired_timer` does the same: a trait over the two, with what it says of each, would be longer than both.
fn acquired_event(e: Event) -> Event
    ensures { result ≡ record { reset_type = e.reset_type; signaled = def.stays_set e.reset_type e.signaled } }
{
    Event {
        signaled: stays_set(e.reset_type, e.signaled),
        ..e
    }
}

fn acquired_timer(t: Timer) -> Timer
    ensures { result ≡ record { reset_type = t.reset_type; signaled = def.stays_set t.reset_type t.signaled; fire_at = t.fire_at; interval = t.interval } }
{
    Timer {
        signaled: stays_set(t.reset_type, t.signaled),
        ..t
    }
}

fn acquired_mutex(m: Mutex, w: u32) -> Mutex
    ensures { result ≡ record {
      owner = Some w;
      lock_count = pick (ltb m.lock_count 4294967295) (m.lock_count + 1) m.lock_count;
    } }
{
    Mutex {
        owner: Some(w),
        lock_count: m.lock_count.saturating_add(1),
    }
}

fn acquired_semaphore(s: Semaphore) -> Semaphore
    ensures { result ≡ record { count = def.one_less s.count; max_count = s.max_count } }
{
    Semaphore {
        count: s.count.wrapping_sub(1),
        ..s
    }
}

fn acquired(x: KObject, w: u32) -> KObject
    ensures { result ≡ def.acquired x w }
{
    match x {
        KObject::Event(e) => KObject::Event(acquired_event(e)),
        KObject::Mutex(m) => KObject::Mutex(acquired_mutex(m, w)),
        KObject::Semaphore(s) => KObject::Semaphore(acquired_semaphore(s)),
        KObject::Timer(t) => KObject::Timer(acquired_timer(t)),
        other => other,
    }
}

fn acquire_over(x: KObject) -> bool
    ensures { result ≡ def.acquire_over x }
{
    match x {
        KObject::Mutex(m) => m.lock_count == 4294967295,
        KObject::Semaphore(s) => s.count == 2147483648,
        _ => false,
    }
}

// What becomes of the slot of an object that is acquired.
pub fn acquired_slot(s: Slot, w: u32) -> Slot
    ensures { result ≡ with_object s (def.acquired s.object w) }
{
    Slot {
        object: acquired(s.object, w),
        ..s
    }
}

#[tactic(auto, using(laws::specs::Logic::or_yes, laws::specs::Logic::or_no))]
pub fn over_after(before: bool, s: Slot) -> bool
    ensures { result ≡ (before or def.acquire_over s.object) }
{
    before || acquire_over(s.object)
}
