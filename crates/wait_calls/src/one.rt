// `wait_synchronization1` (svc.rs).
ghost use Rattle.std.specs.Prelude.{◌≡◌, true, false, Some};
ghost use Rattle.block.specs.Block.{dec_block};
ghost use Rattle.sound.specs.Question.{sound?};
ghost use Rattle.pass.specs.Asks.{pseudo};
ghost use Rattle.svc.specs.Waits as def;
ghost use Rattle.lent.specs.Operations.{out_of_handles?};
ghost use Rattle.outcome.specs.Outcome.{outcome, left};
ghost use Rattle.wait_calls.specs.Named.{wait1_opened};

use crate::begin_wait::WaitFor;
use crate::{begin_wait, taken};
use block::Block;
use outcome::{Answer, Outcome};
use rows::read;
use svc::Registers;
use timer_calls::caught;
use types::refusal::Refusal;
use types::thread::{WAIT_LIST, WaitSyscall};
use units::{Handle, Nanos, ObjectId, Ticks};

// A time-out of 0 does not wait.
#[tactic(auto, using(crate::proofs::Lists::takes))]
fn wait_one(
    block: &mut Block,
    c: u32,
    o: ObjectId,
    nanos: Nanos,
    tick: Ticks,
) -> Result<Outcome, Refusal>
    requires block_value { sound? block.old ≡ true }
    requires block_value_2 { out_of_handles? (dec_block block.old) ≡ false }
    requires current_thread_value { (dec_block block.old).current_thread ≡ Some c }
    ensures value { result ≡ outcome (def.wait1_as (Some c) (dec_block block.old) o.0 nanos.0 tick.0) }
    ensures block_after { block.new ≡ left (def.wait1_as (Some c) (dec_block block.old) o.0 nanos.0 tick.0) block.old }
{
    let x = read::slot_at(block, o);
    if wait::signaled(block, x.object, c) {
        taken::take(block, o, c)?;
        return Ok(outcome::done());
    }
    if nanos.is_zero() {
        return Ok(Outcome::from(Answer::TimedOut));
    }
    let mut l = [ObjectId(0); WAIT_LIST];
    l[0] = o;
    let w = WaitFor {
        thread: c,
        list: l,
        count: 1,
        all: false,
        timeout: nanos,
    };
    begin_wait::begin_wait(block, w, tick, Some(WaitSyscall::WaitSynchronization1));
    Ok(outcome::silent())
}

// The call once the timers have fired and the handle is open: it names o.
fn wait_opened(
    block: &mut Block,
    r: Registers,
    o: ObjectId,
    tick: Ticks,
) -> Result<Outcome, Refusal>
    requires block_value { sound? block.old ≡ true }
    requires block_value_2 { out_of_handles? (dec_block block.old) ≡ false }
    ensures value { result ≡ outcome (wait1_opened (dec_block block.old) o.0 r tick.0) }
    ensures block_after { block.new ≡ left (wait1_opened (dec_block block.old) o.0 r tick.0) block.old }
{
    if o.0 == 0 {
        return Ok(Outcome::from(Answer::UnknownHandle));
    }
    let Some(c) = read::current(block) else {
        return Ok(outcome::done());
    };
    wait_one(block, c, o, Nanos::from_words(r.r2, r.r3), tick)
}

// A pseudo-handle names a thread or the process, of which a wait finds nothing; its object may have to be made.
fn wait_pseudo(block: &mut Block, r: Registers, tick: Ticks) -> Result<Outcome, Refusal>
    requires block_value { sound? block.old ≡ true }
    requires r0_value { pseudo r.r0 ≡ true }
    ensures value { result ≡ outcome (def.wait_synchronization1 (dec_block block.old) r tick.0) }
    ensures block_after { block.new ≡ left (def.wait_synchronization1 (dec_block block.old) r tick.0) block.old }
{
    let o = caught::open_caught(block, Handle(r.r0), tick)?;
    wait_opened(block, r, o, tick)
}

// r0 handle, r2 and r3 nanoseconds. What the wait finds of the object is looked for before the timers fire, since a
// finding must leave the block as it was; a timer that fires changes no mutex and no semaphore.
pub fn wait_synchronization1(
    block: &mut Block,
    r: Registers,
    tick: Ticks,
) -> Result<Outcome, Refusal>
    requires block_value { sound? block.old ≡ true }
    ensures value { result ≡ outcome (def.wait_synchronization1 (dec_block block.old) r tick.0) }
    ensures block_after { block.new ≡ left (def.wait_synchronization1 (dec_block block.old) r tick.0) block.old }
{
    let h = Handle(r.r0);
    if svc::read::is_pseudo(h) {
        return wait_pseudo(block, r, tick);
    }
    let o = read::resolve(block, h);
    if taken::over_now(block, o) {
        return Err(Refusal::Overflow);
    }
    let fires = due::timer_due(block, tick);
    caught::found_before(block, false, fires, tick)?;
    caught::catch_up_if(block, fires, tick);
    wait_opened(block, r, o, tick)
}
