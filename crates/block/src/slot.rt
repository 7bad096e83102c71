// An object slot as 40 bytes.
ghost use Rattle.std.specs.Prelude.{◌≡◌, length};
ghost use Rattle.codec.specs.Layout.{dec_as};
ghost use Rattle.block.specs.Slot.{event_words, mutex_words, timer_words, event_of, mutex_of, timer_of, object_words, object_of, slot_w, slot_words, enc_slot, dec_slot};
ghost use Rattle.block.specs.Sizes.{length-enc_slot};

use crate::record::Record;
use codec::{Four, Two};
use types::object::{KObject, Slot};
use types::sync::{AddressArbiter, Event, Mutex, ResetType, Semaphore, Timer};
use units::Ticks;

// An object as numbers, in the order of the block.
#[derive(Clone, Copy)]
pub struct ObjectWords {
    pub kind: u32,
    pub a: u32,
    pub b: u32,
    pub c: u32,
    pub x: u64,
    pub y: u64,
}

// What a kind does not have is 0.
const NONE: ObjectWords = ObjectWords {
    kind: 0,
    a: 0,
    b: 0,
    c: 0,
    x: 0,
    y: 0,
};

fn event_words(e: Event) -> ObjectWords
    ensures { result ≡ event_words e }
{
    ObjectWords {
        kind: 2,
        a: u32::from(e.reset_type),
        b: e.signaled as u32,
        ..NONE
    }
}

fn mutex_words(m: Mutex) -> ObjectWords
    ensures { result ≡ mutex_words m }
{
    ObjectWords {
        kind: 3,
        a: types::thread::option_flag(m.owner),
        b: types::thread::option_value(m.owner),
        c: m.lock_count,
        ..NONE
    }
}

fn timer_words(t: Timer) -> ObjectWords
    ensures { result ≡ timer_words t }
{
    ObjectWords {
        kind: 5,
        a: u32::from(t.reset_type),
        b: t.signaled as u32,
        c: types::thread::option_flag(t.fire_at),
        x: types::thread::tick_value(t.fire_at),
        y: t.interval.0,
    }
}

pub fn object_words(o: KObject) -> ObjectWords
    ensures { result ≡ object_words o }
{
    match o {
        KObject::Free(next) => ObjectWords { a: next, ..NONE },
        KObject::Thread(t) => ObjectWords {
            kind: 1,
            a: t,
            ..NONE
        },
        KObject::Event(e) => event_words(e),
        KObject::Mutex(m) => mutex_words(m),
        KObject::Semaphore(s) => ObjectWords {
            kind: 4,
            a: s.count,
            b: s.max_count,
            ..NONE
        },
        KObject::Timer(t) => timer_words(t),
        KObject::AddressArbiter(a) => ObjectWords {
            kind: 6,
            a: a.waiters,
            ..NONE
        },
        KObject::Process => ObjectWords { kind: 7, ..NONE },
        KObject::ResourceLimit => ObjectWords { kind: 8, ..NONE },
    }
}

fn event_of(w: ObjectWords) -> Event
    ensures { result ≡ event_of w }
{
    Event {
        reset_type: ResetType::from(w.a),
        signaled: w.b == 1,
    }
}

fn mutex_of(w: ObjectWords) -> Mutex
    ensures { result ≡ mutex_of w }
{
    Mutex {
        owner: types::thread::option_of(w.a, w.b),
        lock_count: w.c,
    }
}

fn timer_of(w: ObjectWords) -> Timer
    ensures { result ≡ timer_of w }
{
    Timer {
        reset_type: ResetType::from(w.a),
        signaled: w.b == 1,
        fire_at: types::thread::tick_option(w.c, w.x),
        interval: Ticks(w.y),
    }
}

// An unknown kind reads as a dead slot, and question 2 refuses it.
pub fn object_of(w: ObjectWords) -> KObject
    ensures { result ≡ object_of w }
{
    match w.kind {
        1 => KObject::Thread(w.a),
        2 => KObject::Event(event_of(w)),
        3 => KObject::Mutex(mutex_of(w)),
        4 => KObject::Semaphore(Semaphore {
            count: w.a,
            max_count: w.b,
        }),
        5 => KObject::Timer(timer_of(w)),
        6 => KObject::AddressArbiter(AddressArbiter { waiters: w.a }),
        7 => KObject::Process,
        8 => KObject::ResourceLimit,
        _ => KObject::Free(w.a),
    }
}

// The numbers of the object in a slot.
#[tactic(auto, unfolding(codec::specs::Layout::dec_as))]
pub fn get_words(s: &[u8]) -> ObjectWords
    requires { length s.now ≡ 40 }
    ensures { result ≡ slot_words (dec_as slot_w s.now 0) }
{
    let f = codec::get_four(s, 0);
    let t = codec::get_two(s, 16);
    ObjectWords {
        kind: f.0,
        a: f.3,
        b: t.0,
        c: t.1,
        x: codec::get64(s, 24),
        y: codec::get64(s, 32),
    }
}

impl Record for Slot {
    ghost SIZE = { 40 };

    ghost enc = { enc_slot };

    ghost dec = { dec_slot };

    const SIZE: usize = 40;

    #[tactic(auto, unfolding(crate::specs::Slot::dec_slot, codec::specs::Layout::dec_as))]
    fn get(s: &[u8]) -> Slot {
        let t = codec::get_two(s, 4);
        Slot {
            object: object_of(get_words(s)),
            refcount: t.0,
            pulsed: t.1 == 1,
        }
    }

    fn put(self, b: &mut [u8]) {
        let w = object_words(self.object);
        codec::put_four(b, 0, Four(w.kind, self.refcount, self.pulsed as u32, w.a));
        codec::put_two(b, 16, Two(w.b, w.c));
        codec::put64(b, 24, w.x);
        codec::put64(b, 32, w.y);
    }

    ghost sized = { length-enc_slot };
}
