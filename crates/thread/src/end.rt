// The end of a thread, and with it of its wait (`end_thread`, `end_wait`). A number past the places names no thread.
ghost use Rattle.std.specs.Prelude.{◌≡◌, eqb};
ghost use Rattle.types.specs.Object.{kind_number};
ghost use Rattle.object.specs.Slots.{with_object};
ghost use Rattle.thread.specs.Thread.{clear_wait};
ghost use Rattle.thread.specs.Threads as def;

use crate::thread;
use types::object::{KObject, Slot};
use types::sync::Mutex;
use types::thread::{Thread, ThreadStatus};

fn disowned_mutex(t: u32, m: Mutex) -> Mutex
    ensures { result ≡ def.disowned_mutex t m }
{
    if sound::is_current(m.owner, t) {
        return Mutex {
            owner: None,
            lock_count: 0,
        };
    }
    m
}

fn disowned(t: u32, o: KObject) -> KObject
    ensures { result ≡ def.disowned t o }
{
    match o {
        KObject::Mutex(m) => KObject::Mutex(disowned_mutex(t, m)),
        other => other,
    }
}

pub fn disowned_slot(t: u32, s: Slot) -> Slot
    ensures { result ≡ with_object s (def.disowned t s.object) }
{
    Slot {
        object: disowned(t, s.object),
        ..s
    }
}

// Only a mutex has an owner.
pub fn is_mutex(s: Slot) -> bool
    ensures { result ≡ eqb (kind_number s.object) 3 }
{
    types::object::is_mutex(s.object)
}

pub fn left_by(w: Option<u32>, t: u32) -> Option<u32>
    ensures { result ≡ def.left_by w t }
{
    if sound::is_current(w, t) { None } else { w }
}

// A thread that waits for nothing and is Dead.
pub fn ended(t: Thread) -> Thread
    ensures { result ≡ def.ended (clear_wait t) }
{
    let u = thread::with_status(thread::without_wait(t), ThreadStatus::Dead);
    thread::with_result(u, None, None)
}
