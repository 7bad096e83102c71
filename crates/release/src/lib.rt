// An object let go in the block where it lies (`release` of object.rs). A block in mid-operation may have counts that
// are not right yet, so it need not be sound here, only the encoding of a state.
#![tactic(auto)]

ghost use Rattle.std.specs.Prelude.{◌≡◌, false};
ghost use Rattle.laws.specs.Walk.{walk};
ghost use Rattle.block.specs.Block.{dec_block};
ghost use Rattle.sound.specs.View.{ids, slot_at, waiter_nexts};
ghost use Rattle.object.specs.Waiters.{unlink};
ghost use Rattle.object.specs.Store as def;
ghost use Rattle.thread.specs.Threads.{with_threads};
ghost use Rattle.rows.specs.Holds.{Holds, with_waiters};
ghost use Rattle.release.specs.Encoded.{Encoded};

use block::{Block, Head, record};
use object::waiters;
use rows::{read, write};
use types::object::{KObject, Slot};
use units::ObjectId;

// The records of the chain from first are free again, in front of the free chain. Gives the first free record then.
fn free_records(block: &mut Block, first: u32, free: u32) -> u32
    requires encoded { Encoded block.old }
    ensures value { result ≡ (unlink (λ _. false) (dec_block block.old).objects.waiters free (walk (waiter_nexts (dec_block block.old).objects.waiters) 64 first)).free }
    ensures holds { Holds block.new (with_threads (dec_block block.old) (dec_block block.old).threads (with_waiters (dec_block block.old).objects (unlink (λ _. false) (dec_block block.old).objects.waiters free (walk (waiter_nexts (dec_block block.old).objects.waiters) 64 first)).waiters)) }
{
    if first == 0 {
        return free;
    }
    let mut ws = record::read_all(block, 12416);
    let u = waiters::unlink(&mut ws, None, first, 64, free);
    record::write_all(block, 12416, &ws);
    u.free
}

// The last holder of the object o, whose slot has old, goes. The mark stays with the slot.
fn free_slot(block: &mut Block, o: ObjectId, old: Slot)
    requires encoded { Encoded block.old }
    requires value { old ≡ slot_at (dec_block block.old).objects.slots o.0 }
    ensures { Holds block.new (with_threads (dec_block block.old) (dec_block block.old).threads (def.release_if false (dec_block block.old).objects o.0)) }
{
    let head = block::get_head(block);
    let free = free_records(block, types::object::head_of(old.object), head.free_waiter);
    write::put_slot(
        block,
        o,
        Slot {
            object: KObject::Free(head.free),
            refcount: 0,
            ..old
        },
    );
    write::put_head(
        block,
        Head {
            free: o.0,
            free_waiter: free,
            ..head
        },
    );
}

// One holder less; with the last the slot is free, and so are an arbiter's records. A dead slot has no holder to lose.
#[tactic(auto, using(crate::proofs::Released::goes))]
pub fn release(block: &mut Block, o: ObjectId)
    requires encoded { Encoded block.old }
    ensures block_after { dec_block block.new ≡ with_threads (dec_block block.old) (dec_block block.old).threads (def.release (dec_block block.old).objects o.0) }
    ensures encoded_2 { Encoded block.new }
{
    let old = read::slot_at(block, o);
    if types::object::is_free(old.object) {
        return;
    }
    if old.refcount < 2 {
        return free_slot(block, o, old);
    }
    write::put_slot(
        block,
        o,
        Slot {
            refcount: old.refcount - 1,
            ..old
        },
    );
}

// Each of a list, in order.
#[tactic(auto, using(crate::proofs::Released::lists))]
pub fn release_list(block: &mut Block, list: &[ObjectId])
    requires encoded { Encoded block.old }
    ensures block_after { dec_block block.new
        ≡ with_threads (dec_block block.old) (dec_block block.old).threads
        (def.releases (dec_block block.old).objects (ids list.now)) }
    ensures encoded_2 { Encoded block.new }
{
    for o in list {
        release(block, *o);
    }
}
