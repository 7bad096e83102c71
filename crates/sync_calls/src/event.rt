// `create_event`, `signal_event` and `clear_event`.
ghost use Rattle.std.specs.Prelude.{◌≡◌, true, length};
ghost use Rattle.block.specs.Block.{dec_block};
ghost use Rattle.sound.specs.Question.{sound?};
ghost use Rattle.svc.specs.Sync as def;
ghost use Rattle.rows.specs.Holds.{Holds};
ghost use Rattle.pass.specs.Signal as sig;
ghost use Rattle.svc.specs.Call.{with_objects};
ghost use Rattle.outcome.specs.Outcome.{outcome, left};

use block::Block;
use objects::{change, create, open};
use outcome::{Answer, Outcome};
use rows::{read, write};
use svc::Registers;
use types::object::KObject;
use types::refusal::Refusal;
use types::sync::{Event, ResetType};
use units::{Handle, ObjectId};

// r1 reset type.
#[tactic(auto, unfolding(svc::specs::Sync::create_event))]
pub fn create_event(block: &mut Block, r: Registers) -> Result<Outcome, Refusal>
    requires block_value { sound? block.old ≡ true }
    ensures value { result ≡ outcome (def.create_event (dec_block block.old) r) }
    ensures block_after { block.new ≡ left (def.create_event (dec_block block.old) r) block.old }
{
    let event = Event {
        reset_type: ResetType::from(r.r1),
        signaled: false,
    };
    create::create_object(block, KObject::Event(event))
}

// Whether a thread waits on the object.
#[tactic(auto, using(crate::proofs::Waited::waiting))]
fn waited_sync(block: &Block, o: ObjectId) -> bool
    ensures { result ≡ sig.waited_sync (dec_block block.now).threads o.0 }
{
    for i in 0..32 {
        if signal::event::waits_on(read::thread_at(block, i), o) {
            return true;
        }
    }
    false
}

// A pulse that nothing waits on is lost.
fn put_signaled(block: &mut Block, o: ObjectId)
    requires block_value { sound? block.old ≡ true }
    ensures { Holds block.new (with_objects (dec_block block.old) (sig.signal_event (dec_block block.old).objects (dec_block block.old).threads o.0)) }
{
    let waited = waited_sync(block, o);
    let x = read::slot_at(block, o);
    write::put_slot(block, o, signal::event::signaled_slot(waited, x, x.object));
}

// r0 handle; done for an object of another kind too.
pub fn signal_event(block: &mut Block, r: Registers) -> Result<Outcome, Refusal>
    requires block_value { sound? block.old ≡ true }
    ensures value { result ≡ outcome (def.signal_event (dec_block block.old) r) }
    ensures block_after { block.new ≡ left (def.signal_event (dec_block block.old) r) block.old }
{
    let o = open::resolve(block, Handle(r.r0))?;
    if o.0 == 0 {
        return Ok(Outcome::from(Answer::UnknownHandle));
    }
    put_signaled(block, o);
    Ok(outcome::done())
}

fn put_cleared(block: &mut Block, o: ObjectId)
    requires block_value { sound? block.old ≡ true }
    ensures { Holds block.new (with_objects (dec_block block.old) (sig.clear_event (dec_block block.old).objects o.0)) }
{
    let x = read::slot_at(block, o);
    change::content(block, o, x, signal::event::cleared_event(x.object));
}

// r0 handle; done for an object of another kind too. `signal_event` opens the handle alike; one function over the
// change would look for waiters here too, or lend the block to a closure, with what it does to it in its contract.
pub fn clear_event(block: &mut Block, r: Registers) -> Result<Outcome, Refusal>
    requires block_value { sound? block.old ≡ true }
    ensures value { result ≡ outcome (def.clear_event (dec_block block.old) r) }
    ensures block_after { block.new ≡ left (def.clear_event (dec_block block.old) r) block.old }
{
    let o = open::resolve(block, Handle(r.r0))?;
    if o.0 == 0 {
        return Ok(Outcome::from(Answer::UnknownHandle));
    }
    put_cleared(block, o);
    Ok(outcome::done())
}
