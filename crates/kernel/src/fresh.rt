// A kernel as it starts (Kernel::new of mod.rs).
ghost use Rattle.std.specs.Prelude.{◌≡◌, ◌+◌, ◌-◌, ◌<◌, eqb};
ghost use Rattle.laws.specs.Logic.{pick};
ghost use Rattle.kernel.specs.Fresh.{free_slot, free_waiter, free_slots, free_waiters, blank_thread, fresh_objects, fresh_handles, fresh};

use types::kernel::Kernel;
use types::object::{HandleEntry, HandleTable, KObject, ObjectStore, Slot, Waiter};
use types::thread::Thread;
use units::{Handle, ObjectId};

// The number after that of the cell with index i, of n cells; 0 after the last.
fn next_number(i: usize, n: usize) -> u32
    requires i_lt_n { i < n }
    requires n_bound { n < 1000 }
    ensures { result ≡ pick (eqb (n - 1 - i) 0) 0 (i + 2) }
{
    if n - 1 <= i { 0 } else { (i + 2) as u32 }
}

fn free_slot(next: u32) -> Slot
    ensures { result ≡ free_slot next }
{
    Slot {
        object: KObject::Free(next),
        ..Slot::default()
    }
}

// Beside `free_waiters`, and not one function over the kind of cell: each is one line, and that one would need laws of
// a closure.
#[tactic(auto, using(crate::proofs::Rows::row_done), unfolding(crate::specs::Fresh::free_slots))]
fn free_slots() -> [Slot; 128]
    ensures { result ≡ free_slots }
{
    let mut l = [Slot::default(); 128];
    for i in 0..128 {
        l[i] = free_slot(next_number(i, 128));
    }
    l
}

fn free_waiter(next: u32) -> Waiter
    ensures { result ≡ free_waiter next }
{
    Waiter {
        next,
        ..Waiter::default()
    }
}

#[tactic(auto, using(crate::proofs::Rows::row_done), unfolding(crate::specs::Fresh::free_waiters))]
fn free_waiters() -> [Waiter; 64]
    ensures { result ≡ free_waiters }
{
    let mut l = [Waiter::default(); 64];
    for i in 0..64 {
        l[i] = free_waiter(next_number(i, 64));
    }
    l
}

pub fn blank_thread() -> Thread
    ensures { result ≡ blank_thread }
{
    Thread::default()
}

fn fresh_objects() -> ObjectStore
    ensures { result ≡ fresh_objects }
{
    ObjectStore {
        slots: free_slots(),
        free: 1,
        waiters: free_waiters(),
        free_waiter: 1,
        thread_objects: [ObjectId::default(); 32],
        process_object: ObjectId::default(),
        full: false,
        overflow: false,
    }
}

fn fresh_handles() -> HandleTable
    ensures { result ≡ fresh_handles }
{
    HandleTable {
        entries: [HandleEntry::default(); 256],
        count: 0,
        next: Handle(0x10000),
        full: false,
        overflow: false,
    }
}

#[tactic(auto, unfolding(crate::specs::Fresh::fresh))]
pub fn fresh_kernel(status_word: u32) -> Kernel
    ensures { result ≡ fresh status_word }
{
    Kernel {
        status_word,
        objects: fresh_objects(),
        handles: fresh_handles(),
        threads: [blank_thread(); 32],
        thread_count: 0,
        current_thread: None,
        next_tls_slot: 0,
        next_guest_id: 0,
        all_blocked: false,
        relief: false,
        full: false,
        overflow: false,
    }
}
