// `create_thread` (svc.rs), in the block.
ghost use Rattle.std.specs.Prelude.{◌≡◌, true, ◌<◌, eqb};
ghost use Rattle.block.specs.Block.{dec_block};
ghost use Rattle.sound.specs.Objects.{kept_at};
ghost use Rattle.sound.specs.Question.{sound?};
ghost use Rattle.thread.specs.Threads.{ended_thread};
ghost use Rattle.svc.specs.Threads as def;
ghost use Rattle.types.specs.Refusal.{unless_found};
ghost use Rattle.rows.specs.Holds.{Holds};
ghost use Rattle.outcome.specs.Outcome.{outcome, left};
ghost use Rattle.threads.specs.Made.{made_store, found_made};

use block::Block;
use outcome::Outcome;
use rows::{read, write};
use svc::Registers;
use thread::create::NewThread;
use types::object::KObject;
use types::refusal::Refusal;
use units::ObjectId;

// No slot is free for the thread's object. The object of an ended thread, if there is one, makes room when it is let
// go.
#[tactic(auto, using(crate::proofs::Forgotten::slots))]
fn no_slot(block: &Block, id: u32) -> bool
    requires block_value { sound? block.now ≡ true }
    requires id_value { id ≡ ended_thread (dec_block block.now) }
    ensures { result ≡ eqb (made_store (dec_block block.now)).free 0 }
{
    read::kept_at(block, id).0 == 0 && codec::get32(block, 32) == 0
}

fn room_to_make(block: &Block, id: u32) -> Result<(), Refusal>
    requires block_value { sound? block.now ≡ true }
    requires id_value { id ≡ ended_thread (dec_block block.now) }
    ensures { result ≡ unless_found (found_made (dec_block block.now)) tt }
{
    let none = no_slot(block, id);
    let guest = codec::get32(block, 20);
    let count = codec::get32(block, 40);
    let next = codec::get32(block, 44);
    let crowded = none || 256 <= count;
    outcome::room(
        32 <= id || crowded,
        4294967295 <= guest || 0xFFFF8000 <= next,
    )
}

// The object of thread id, kept and with a handle: two name it. A slot is free for it.
fn put_handle(block: &mut Block, id: u32)
    requires block_value { sound? block.old ≡ true }
    requires id_bound { id < 32 }
    requires id_value { kept_at (dec_block block.old).objects id ≡ 0 }
    requires free_nonzero { 0 < (dec_block block.old).objects.free }
    ensures { Holds block.new (def.thread_handle (dec_block block.old) id).kernel }
{
    let head = block::get_head(block);
    let o = ObjectId(head.free);
    let made = write::insert(block, head, KObject::Thread(id), 2);
    write::put_kept(block, id, o);
    let given = write::give(block, made, o);
    write::put_head(block, given);
}

// r1 gets a handle to the new thread.
pub fn create_thread(block: &mut Block, r: Registers) -> Result<Outcome, Refusal>
    requires block_value { sound? block.old ≡ true }
    ensures value { result ≡ outcome (def.create_thread (dec_block block.old) r) }
    ensures block_after { block.new ≡ left (def.create_thread (dec_block block.old) r) block.old }
{
    let id = vacant::ended_thread(block);
    room_to_make(block, id)?;
    let tls = vacant::tls_slot(block);
    let next = codec::get32(block, 44);
    let asked = NewThread {
        entry: r.r1,
        stack_top: r.r3,
        priority: r.r0,
        processor_id: r.r4,
    };
    spawn::put_created(block, id, tls, asked);
    put_handle(block, id);
    Ok(outcome::gives(next))
}
