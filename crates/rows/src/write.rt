// Records written where they lie. A number that no record has writes nothing.
// One function for each table, as `block::record` reads them.
ghost use Rattle.std.specs.Prelude.{◌≡◌};
ghost use Rattle.block.specs.Block.{dec_block};
ghost use Rattle.sound.specs.View.{slot_at};
ghost use Rattle.rows.specs.Rows as def;

use crate::read;
use block::{Block, Head, record};
use object::handles;
use tally::place;
use types::object::{HandleEntry, KObject, Slot};
use types::thread::Thread;
use units::{Handle, ObjectId};

#[tactic(auto, unfolding(crate::specs::Rows::thread_put))]
pub fn put_thread(b: &mut Block, i: u32, x: Thread)
    ensures { b.new ≡ def.thread_put b.old i x }
{
    if i < 32 {
        record::write(b, 128, i as usize, x);
    }
}

// Objects are numbered from 1.
#[tactic(auto, unfolding(crate::specs::Rows::slot_put))]
pub fn put_slot(b: &mut Block, o: ObjectId, x: Slot)
    ensures { b.new ≡ def.slot_put b.old o.0 x }
{
    if place::is_slot(o) {
        record::write(b, 5248, place::slot_index(o), x);
    }
}

#[tactic(auto, unfolding(crate::specs::Rows::entry_put))]
pub fn put_entry(b: &mut Block, i: u32, x: HandleEntry)
    ensures { b.new ≡ def.entry_put b.old i x }
{
    if i < 256 {
        record::write(b, 10368, i as usize, x);
    }
}

#[tactic(auto, unfolding(crate::specs::Rows::kept_put))]
pub fn put_kept(b: &mut Block, i: u32, x: ObjectId)
    ensures { b.new ≡ def.kept_put b.old i x }
{
    if i < 32 {
        record::write(b, 13184, i as usize, x);
    }
}

pub fn put_head(b: &mut Block, h: Head)
    ensures { b.new ≡ def.head_put b.old h }
{
    block::put_head(&mut b[0..128], h);
}

// A new object, with so many holders, goes into the first free slot; the mark stays with the slot. Gives the head h
// without that slot. The caller writes the head, once, whatever else of it changes.
pub fn insert(b: &mut Block, h: Head, v: KObject, holders: u32) -> Head
    ensures block_after { b.new ≡ def.slot_put b.old h.free
        (def.slot_inserted (slot_at (dec_block b.old).objects.slots h.free) v holders) }
    ensures value { result ≡ def.head_inserted h (slot_at (dec_block b.old).objects.slots h.free) }
{
    let o = ObjectId(h.free);
    let old = read::slot_at(b, o);
    let slot = Slot {
        object: v,
        refcount: holders,
        ..old
    };
    put_slot(b, o, slot);
    Head {
        free: types::object::next_of(old.object),
        ..h
    }
}

// The next handle, for the object o, goes behind the last one. Gives the head h with one handle more; the caller writes
// it. A full table takes none, and after the last handle there is no next.
pub fn give(b: &mut Block, h: Head, o: ObjectId) -> Head
    ensures block_after { b.new ≡ def.entry_put b.old h.handle_count (def.entry_given h o) }
    ensures value { result ≡ def.head_given h }
{
    let entry = HandleEntry {
        handle: Handle(h.next_handle),
        object: o,
    };
    put_entry(b, h.handle_count, entry);
    Head {
        handle_count: handles::more_below(h.handle_count, 256),
        next_handle: handles::more_below(h.next_handle, 0xFFFF8000),
        ..h
    }
}
