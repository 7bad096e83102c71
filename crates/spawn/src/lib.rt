// Making a thread in the block: its record and the head are written where they lie.
#![tactic(auto)]

mod forget;

ghost use Rattle.std.specs.Prelude.{◌≡◌, true, ◌≤◌, eqb, leb};
ghost use Rattle.laws.specs.Logic.{pick, ◌or◌};
ghost use Rattle.types.specs.Refusal.{found_in, unless_found};
ghost use Rattle.block.specs.Block.{enc_block, dec_block};
ghost use Rattle.sound.specs.Question.{sound?};
ghost use Rattle.thread.specs.Threads.{tls_slot, ended_thread};
ghost use Rattle.thread.specs.Threads as thread;
ghost use Rattle.lent.specs.Operations.{finding, out_of_handles?};
ghost use Rattle.rows.specs.Holds.{Holds};
ghost use Rattle.outcome.specs.Findings.{found_of};
ghost use Rattle.spawn.specs.Made.{head_made};

use block::{Block, Head};
use rows::write;
use thread::create::{self, NewThread};
use types::refusal::Refusal;

// The head with one thread more, or as many where a place is used again.
#[tactic(auto, using(crate::proofs::Made::heads))]
fn new_head(h: Head, reused: bool, tls: u32) -> Head
    requires { tls ≤ 32 }
    ensures { result ≡ head_made h reused tls }
{
    Head {
        thread_count: create::counted(reused, h.thread_count),
        next_tls_slot: h.next_tls_slot.max(tls + 1),
        next_guest_id: h.next_guest_id.saturating_add(1),
        ..h
    }
}

// The thread's record and the head.
pub fn put_created(block: &mut Block, id: u32, tls: u32, asked: NewThread)
    requires block_value { sound? block.old ≡ true }
    requires id_value { id ≡ ended_thread (dec_block block.old) }
    requires tls_value { tls ≡ tls_slot (dec_block block.old) }
    ensures { Holds block.new
        (thread.create_thread (dec_block block.old) asked.entry asked.stack_top asked.priority asked.processor_id) }
{
    let reused = id < codec::get32(block, 4);
    forget::forget_if(block, reused, id);
    let head = block::get_head(block);
    let bounded = NewThread {
        priority: asked.priority.min(63),
        ..asked
    };
    let made = create::new_thread(bounded, tls, head.next_guest_id);
    write::put_thread(block, id, made);
    write::put_head(block, new_head(head, reused, tls));
}

// No place is left; the guest ids or the handles are used up.
fn room_to_create(block: &Block, id: u32) -> Result<(), Refusal>
    ensures { result ≡ unless_found
        (found_of (leb 32 id)
        (leb 4294967295 (dec_block block.now).next_guest_id or out_of_handles? (dec_block block.now))) tt }
{
    outcome::room(
        32 <= id,
        4294967295 <= codec::get32(block, 20) || outcome::out_of_handles(block),
    )
}

// If it is refused the block stays as it is.
pub fn create_thread(block: &mut Block, id: u32, tls: u32, asked: NewThread) -> Result<(), Refusal>
    requires block_value { sound? block.old ≡ true }
    requires id_value { id ≡ ended_thread (dec_block block.old) }
    requires tls_value { tls ≡ tls_slot (dec_block block.old) }
    ensures value { result
        ≡ unless_found (finding
        (thread.create_thread (dec_block block.old) asked.entry asked.stack_top asked.priority asked.processor_id)) tt }
    ensures block_after { block.new
        ≡ pick (eqb (found_in result) 0)
        (enc_block (thread.create_thread (dec_block block.old) asked.entry asked.stack_top asked.priority
        asked.processor_id)) block.old }
{
    room_to_create(block, id)?;
    put_created(block, id, tls, asked);
    Ok(())
}
