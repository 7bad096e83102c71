// `set_thread_priority` (svc.rs), in the block.
ghost use Rattle.std.specs.Prelude.{◌≡◌, true, length};
ghost use Rattle.block.specs.Block.{dec_block};
ghost use Rattle.sound.specs.Question.{sound?};
ghost use Rattle.svc.specs.Threads as def;
ghost use Rattle.outcome.specs.Outcome.{outcome, left};

use crate::change::change;
use block::Block;
use outcome::{Answer, Outcome};
use rows::read;
use svc::Registers;
use thread::priority;
use types::object::KObject;
use types::refusal::Refusal;
use units::Handle;

// The pseudo-handle of the process names no thread, and no object is made.
fn resolve_thread(block: &Block, h: Handle) -> Option<u32>
    ensures { result ≡ def.resolve_thread (dec_block block.now) h.0 }
{
    if h.0 == 0xFFFF8000 {
        return read::current(block);
    }
    match read::slot_at(block, read::resolve(block, h)).object {
        KObject::Thread(t) => Some(t),
        _ => None,
    }
}

// r0 handle, r1 priority. Above 63, the lowest, it is cut to 63.
pub fn set_thread_priority(block: &mut Block, r: Registers) -> Result<Outcome, Refusal>
    requires block_value { sound? block.old ≡ true }
    ensures value { result ≡ outcome (def.set_thread_priority (dec_block block.old) r) }
    ensures block_after { block.new ≡ left (def.set_thread_priority (dec_block block.old) r) block.old }
{
    outcome::room(false, outcome::out_of_handles(block))?;
    let Some(t) = resolve_thread(block, Handle(r.r0)) else {
        return Ok(Outcome::from(Answer::UnknownHandle));
    };
    let lowest = r.r1.min(63);
    change(block, t, |x| priority::with_priority(x, lowest));
    Ok(outcome::done())
}
