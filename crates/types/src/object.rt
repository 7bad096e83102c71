// Kernel objects and the handle table (object.rs).
ghost use Rattle.std.specs.Prelude.{◌≡◌};
ghost use Rattle.types.specs.Object.{kind_number, next_of, head_of};
ghost use Rattle.types.specs.declared.object.KObject.TheVariants.{Free};
ghost use Rattle.types.specs.Tests.{free?, mutex?, timer?};

use crate::sync::{AddressArbiter, Event, Mutex, Semaphore, Timer};
use units::{Handle, ObjectId};

#[derive(Clone, Copy)]
pub enum KObject {
    // A dead slot, with the next of the free chain.
    Free(u32),
    Thread(u32),
    Event(Event),
    Mutex(Mutex),
    Semaphore(Semaphore),
    Timer(Timer),
    AddressArbiter(AddressArbiter),
    Process,
    // Stands in for every kind that is always signalled and does nothing else here.
    ResourceLimit,
}

impl Default for KObject {
    ghost is_default = { λ o. o ≡ Free 0 };

    fn default() -> KObject {
        KObject::Free(0)
    }
}

#[derive(Clone, Copy, Default)]
pub struct Slot {
    pub object: KObject,
    pub refcount: u32,
    // A pulse signalled since the last pass; the mark belongs to the slot, whoever uses it.
    pub pulsed: bool,
}

// A thread parked at an address, in the chain of an arbiter or in the free one.
#[derive(Clone, Copy, Default)]
pub struct Waiter {
    pub thread: u32,
    pub address: u32,
    pub next: u32,
}

// The objects, and what is kept of them besides handles and wait lists.
#[derive(Clone, Copy)]
pub struct ObjectStore {
    pub slots: [Slot; 128],
    // The free chain's first slot.
    pub free: u32,
    pub waiters: [Waiter; 64],
    // The free record chain's first record.
    pub free_waiter: u32,
    // The object kept for each thread, 0 for none.
    pub thread_objects: [ObjectId; 32],
    pub process_object: ObjectId,
    // Findings of the operation under way, never in a block: something did not fit, a sum overflowed.
    pub full: bool,
    pub overflow: bool,
}

#[derive(Clone, Copy, Default)]
pub struct HandleEntry {
    pub handle: Handle,
    pub object: ObjectId,
}

#[derive(Clone, Copy)]
pub struct HandleTable {
    // The first count are open, in rising order; the rest are 0.
    pub entries: [HandleEntry; 256],
    pub count: u32,
    pub next: Handle,
    // Findings, as the store's.
    pub full: bool,
    pub overflow: bool,
}

// Not by `From`: the number leaves out what the object holds.
pub fn kind_number(o: KObject) -> u32
    ensures { result ≡ kind_number o }
{
    match o {
        KObject::Free(_next) => 0,
        KObject::Thread(_t) => 1,
        KObject::Event(_e) => 2,
        KObject::Mutex(_m) => 3,
        KObject::Semaphore(_s) => 4,
        KObject::Timer(_t) => 5,
        KObject::AddressArbiter(_a) => 6,
        KObject::Process => 7,
        KObject::ResourceLimit => 8,
    }
}

pub fn is_free(o: KObject) -> bool
    ensures { result ≡ free? o }
{
    matches!(&o, KObject::Free(_))
}

pub fn is_mutex(o: KObject) -> bool
    ensures { result ≡ mutex? o }
{
    matches!(&o, KObject::Mutex(_))
}

pub fn is_timer(o: KObject) -> bool
    ensures { result ≡ timer? o }
{
    matches!(&o, KObject::Timer(_))
}

// The next of the free chain, of a dead slot.
pub fn next_of(o: KObject) -> u32
    ensures { result ≡ next_of o }
{
    match o {
        KObject::Free(next) => next,
        _ => 0,
    }
}

// The first record of an arbiter.
pub fn head_of(o: KObject) -> u32
    ensures { result ≡ head_of o }
{
    match o {
        KObject::AddressArbiter(a) => a.waiters,
        _ => 0,
    }
}
