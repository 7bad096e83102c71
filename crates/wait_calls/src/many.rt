// `wait_synchronization_n` (svc.rs).
ghost use Rattle.std.specs.Prelude.{◌≡◌, true, false, not, ◌⊎◌, eqb, take, Some};
ghost use Rattle.laws.specs.Logic.{pick};
ghost use Rattle.block.specs.Block.{dec_block};
ghost use Rattle.sound.specs.Question.{sound?};
ghost use Rattle.svc.specs.Waits as def;
ghost use Rattle.lent.specs.Operations.{finding, out_of_handles?};
ghost use Rattle.outcome.specs.Outcome.{outcome, left};
ghost use Rattle.wait_calls.specs.Waits.{all_taken, taken_at, take_in, wait_in};
ghost use Rattle.wait_calls.specs.Opens.{Ready};
ghost use Rattle.wait_calls.specs.Room.{lacks_room};

use crate::begin_wait::WaitFor;
use crate::handles::Looked;
use crate::{begin_wait, handles, near, room, taken};
use block::Block;
use outcome::{Answer, Outcome};
use rows::read;
use svc::Registers;
use timer_calls::caught;
use types::list;
use types::refusal::Refusal;
use types::thread::{WAIT_COUNT, WAIT_LIST, WaitSyscall};
use units::{Nanos, ObjectId, Ticks};

// Every object is taken, one after the other. If it is refused those before are taken already, and the block is left
// open: `wait_saved` puts back a copy.
#[tactic(auto, using(crate::proofs::Lists::takes))]
fn take_all(block: &mut Block, w: WaitFor, i: u32) -> Result<Outcome, Refusal>
    requires block_value { sound? block.old ≡ true }
    requires block_value_2 { out_of_handles? (dec_block block.old) ≡ false }
    requires current_thread_value { (dec_block block.old).current_thread ≡ Some w.thread }
    ensures value { result ≡ outcome (all_taken (dec_block block.old) w i) }
    ensures block_after { (finding (all_taken (dec_block block.old) w i).kernel ≡ 0)
        → block.new ≡ left (all_taken (dec_block block.old) w i) block.old }
{
    taken::take_list(block, list::first(&w.list, w.count), w.thread)?;
    Ok(outcome::gives(i))
}

// A wait for all takes every object, one for any the one at the index; r1 gets the index. Where one for all finds
// something the block is left open, as by `take_all`.
#[tactic(auto, using(crate::proofs::Lists::takes))]
fn take_at(block: &mut Block, w: WaitFor, i: u32) -> Result<Outcome, Refusal>
    requires block_value { sound? block.old ≡ true }
    requires block_value_2 { out_of_handles? (dec_block block.old) ≡ false }
    requires current_thread_value { (dec_block block.old).current_thread ≡ Some w.thread }
    ensures value { result ≡ outcome (taken_at (dec_block block.old) w i) }
    ensures block_after { ((w.all ≡ false) ⊎ (finding (taken_at (dec_block block.old) w i).kernel ≡ 0))
        → block.new ≡ left (taken_at (dec_block block.old) w i) block.old }
{
    if w.all {
        return take_all(block, w, i);
    }
    taken::take(
        block,
        take::object_at(list::first(&w.list, w.count), i),
        w.thread,
    )?;
    Ok(outcome::gives(i))
}

// A time-out of 0 does not wait. Where a wait for all finds something the block is left open, as by `take_all`.
fn wait_at(
    block: &mut Block,
    found: Option<u32>,
    w: WaitFor,
    tick: Ticks,
) -> Result<Outcome, Refusal>
    requires block_value { sound? block.old ≡ true }
    requires block_value_2 { out_of_handles? (dec_block block.old) ≡ false }
    requires current_thread_value { (dec_block block.old).current_thread ≡ Some w.thread }
    ensures value { result ≡ outcome
        (take_in found (dec_block block.old) w.thread w.list w.count w.all w.timeout.0 tick.0) }
    ensures block_after { ((w.all ≡ false)
        ⊎ (finding (take_in found (dec_block block.old) w.thread w.list w.count w.all w.timeout.0 tick.0).kernel ≡ 0))
        → block.new ≡ left (take_in found
        (dec_block block.old) w.thread w.list w.count w.all w.timeout.0 tick.0) block.old }
{
    match found {
        None => {
            if w.timeout.is_zero() {
                return Ok(Outcome::from(Answer::TimedOut));
            }
            begin_wait::begin_wait(block, w, tick, Some(WaitSyscall::WaitSynchronizationN));
            Ok(outcome::silent())
        }
        Some(i) => take_at(block, w, i),
    }
}

// The call once the timers have fired and the handles are open: they name the first n of the objects, unless one is
// unknown. Where a wait for all finds something the block is left open, as by `take_all`.
#[tactic(auto, using(crate::proofs::Lists::lists))]
fn wait_list(
    block: &mut Block,
    r: Registers,
    objects: Option<[ObjectId; WAIT_LIST]>,
    n: u32,
    tick: Ticks,
) -> Result<Outcome, Refusal>
    requires block_value { sound? block.old ≡ true }
    requires block_value_2 { out_of_handles? (dec_block block.old) ≡ false }
    ensures value { result ≡ outcome (wait_in (dec_block block.old) objects n r tick.0) }
    ensures block_after { ((not (eqb r.r3 0) ≡ false)
        ⊎ (finding (wait_in (dec_block block.old) objects n r tick.0).kernel ≡ 0))
        → block.new ≡ left (wait_in (dec_block block.old) objects n r tick.0) block.old }
{
    let Some(l) = objects else {
        return Ok(Outcome::from(Answer::UnknownHandle));
    };
    let Some(c) = read::current(block) else {
        return Ok(outcome::done());
    };
    let w = WaitFor {
        thread: c,
        list: l,
        count: n,
        all: r.r3 != 0,
        timeout: Nanos::from_words(r.r0, r.r4),
    };
    let found = wait::satisfied_at(block, w.thread, w.all, list::first(&w.list, w.count));
    wait_at(block, found, w, tick)
}

// Timers that came due fire, the handles are opened unless all are known, then the thread waits. What is looked up is
// what the handles name before. Where the wait finds something and some of that is done the block is left open:
// `wait_saved` puts back a copy, and `may_find` tells where none is needed.
fn wait_caught(
    block: &mut Block,
    r: Registers,
    words: [u32; WAIT_LIST],
    n: u32,
    looked: Looked,
    fires: bool,
    tick: Ticks,
) -> Result<Outcome, Refusal>
    requires block_value { sound? block.old ≡ true }
    requires ready { Ready (dec_block block.old) words n looked.objects looked.known fires tick.0 }
    ensures value { result ≡ outcome (def.wait_synchronization_n (dec_block block.old) r (take n words) tick.0) }
    ensures block_after { (((not (eqb r.r3 0) ≡ false) × ((fires ≡ false) × (looked.known ≡ true)))
        ⊎ (finding (def.wait_synchronization_n (dec_block block.old) r (take n words) tick.0).kernel ≡ 0))
        → block.new ≡ left (def.wait_synchronization_n (dec_block block.old) r (take n words) tick.0) block.old }
{
    caught::catch_up_if(block, fires, tick);
    let m = n.min(WAIT_COUNT);
    if looked.known {
        return wait_list(block, r, Some(looked.objects), m, tick);
    }
    let objects = handles::open_list(block, words, n);
    wait_list(block, r, objects, m, tick)
}

// The same with the block saved, and put back where the wait finds something.
fn wait_saved(
    block: &mut Block,
    r: Registers,
    words: [u32; WAIT_LIST],
    n: u32,
    looked: Looked,
    fires: bool,
    tick: Ticks,
) -> Result<Outcome, Refusal>
    requires block_value { sound? block.old ≡ true }
    requires ready { Ready (dec_block block.old) words n looked.objects looked.known fires tick.0 }
    ensures value { result ≡ outcome (def.wait_synchronization_n (dec_block block.old) r (take n words) tick.0) }
    ensures block_after { block.new ≡ left
        (def.wait_synchronization_n (dec_block block.old) r (take n words) tick.0) block.old }
{
    let saved = *block;
    let o = wait_caught(block, r, words, n, looked, fires, tick);
    if o.is_err() {
        *block = saved;
    }
    o
}

// Whether there is no slot for an object that the handles make; known handles make none.
fn full_if(block: &Block, handles: &[u32], known: bool) -> bool
    ensures { result ≡ pick known false
        (lacks_room (dec_block block.now).current_thread (dec_block block.now).handles
        (dec_block block.now).objects handles.now) }
{
    !known && room::lacks_room(block, handles)
}

// r3 whether for all, r0 and r4 nanoseconds; the handles are the first n words, which stand in fixed memory with their
// count beside them. What is found before the wait is looked for before the first write, since a finding must leave the
// block as it was.
pub fn wait_synchronization_n(
    block: &mut Block,
    r: Registers,
    words: [u32; WAIT_LIST],
    n: u32,
    tick: Ticks,
) -> Result<Outcome, Refusal>
    requires block_value { sound? block.old ≡ true }
    ensures value { result ≡ outcome (def.wait_synchronization_n (dec_block block.old) r (take n words) tick.0) }
    ensures block_after { block.new ≡ left
        (def.wait_synchronization_n (dec_block block.old) r (take n words) tick.0) block.old }
{
    let looked = handles::look_up(block, words, n);
    let full = full_if(block, list::first(&words, n), looked.known);
    let fires = due::timer_due(block, tick);
    caught::found_before(block, full, fires, tick)?;
    if near::may_find(
        block,
        list::first(&looked.objects, n.min(WAIT_COUNT)),
        r.r3 != 0,
        fires,
        looked.known,
    ) {
        return wait_saved(block, r, words, n, looked, fires, tick);
    }
    wait_caught(block, r, words, n, looked, fires, tick)
}
