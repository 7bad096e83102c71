// Records read where they lie.
ghost use Rattle.std.specs.Prelude.{◌≡◌, ◌<◌};
ghost use Rattle.block.specs.Block.{dec_block};
ghost use Rattle.sound.specs.View.{slot_at, thread_at};
ghost use Rattle.sound.specs.Objects.{kept_at};
ghost use Rattle.object.specs.Handles.{place_of, object_of};
ghost use Rattle.rows.specs.Place.{index_of};

use block::{Block, record};
use tally::place;
use types::object::Slot;
use types::thread::Thread;
use units::{Handle, ObjectId};

#[tactic(auto, unfolding(block::specs::Block::dec_block, codec::specs::Layout::dec_as))]
pub fn current(b: &Block) -> Option<u32>
    ensures { result ≡ (dec_block b.now).current_thread }
{
    types::thread::option_of(codec::get32(b, 8), codec::get32(b, 12))
}

#[tactic(auto, using(block::specs::Tables::row_at), unfolding(block::specs::Block::dec_block))]
pub fn thread_at(b: &Block, t: u32) -> Thread
    requires t_bound { t < 32 }
    ensures { result ≡ thread_at (dec_block b.now).threads t }
{
    record::thread_at(b, t as usize)
}

// A number that no slot has reads as a dead slot.
#[tactic(auto, using(crate::proofs::Laws::slots), unfolding(block::specs::Block::dec_block))]
pub fn slot_at(b: &Block, o: ObjectId) -> Slot
    ensures { result ≡ slot_at (dec_block b.now).objects.slots o.0 }
{
    if !place::is_slot(o) {
        return Slot::default();
    }
    record::slot_at(b, place::slot_index(o))
}

// The object kept for thread t, 0 if none.
pub fn kept_at(b: &Block, t: u32) -> ObjectId
    ensures { result.0 ≡ kept_at (dec_block b.now).objects t }
{
    if 32 <= t {
        return ObjectId(0);
    }
    record::kept_at(b, t as usize)
}

// The index of a handle among the entries.
#[tactic(auto, using(crate::proofs::Laws::places), unfolding(block::specs::Block::dec_block))]
pub fn place_of(b: &Block, h: Handle) -> Option<usize>
    ensures { result ≡ index_of (place_of (dec_block b.now).handles.entries h.0) }
{
    for i in 0..256 {
        if record::entry_at(b, i).handle.0 == h.0 {
            return Some(i);
        }
    }
    None
}

// The object that a handle names in the table, 0 if none (`resolve` of object.rs).
#[tactic(auto, using(crate::proofs::Laws::entries), unfolding(block::specs::Block::dec_block))]
pub fn resolve(b: &Block, h: Handle) -> ObjectId
    ensures { result.0 ≡ object_of (dec_block b.now).handles h.0 }
{
    match place_of(b, h) {
        Some(i) => record::entry_at(b, i).object,
        None => ObjectId(0),
    }
}
