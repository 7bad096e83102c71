// What a pass does before it chooses (`fire_timers`, `try_satisfy_wait` for each thread by number, the end of pulses),
// in the block where it lies.
#![tactic(auto)]

mod fate;
mod slots;

ghost use Rattle.std.specs.Prelude.{◌≡◌, true, ◌<◌, Ok};
ghost use Rattle.laws.specs.Logic.{pick};
ghost use Rattle.types.specs.Refusal.{unless_found};
ghost use Rattle.block.specs.Block.{dec_block};
ghost use Rattle.sound.specs.Objects.{Live};
ghost use Rattle.sound.specs.Question.{sound?};
ghost use Rattle.thread.specs.Threads.{with_threads};
ghost use Rattle.pass.specs.Signal.{acquires};
ghost use Rattle.pass.specs.Waits as def;
ghost use Rattle.pass.specs.Schedule as pass;
ghost use Rattle.passing.specs.Awake.{during};
ghost use Rattle.tries.specs.Tries.{awakened, after, is_over, took, waits_of};

use block::Block;
use pass::Fate;
use release::release_list;
use rows::{read, write};
use types::list;
use types::refusal::Refusal;
use types::thread::{Thread, ThreadStatus, WaitResult};
use units::Ticks;

// A Ready thread whose wait is over, with the result r.
fn woken(t: Thread, r: Option<WaitResult>) -> Thread
    ensures { result ≡ awakened t r }
{
    let over = thread::thread::with_result(thread::thread::without_wait(t), r, t.wait_syscall);
    Thread {
        status: ThreadStatus::Ready,
        ..over
    }
}

// The thread after its try.
fn tried(f: Fate, t: Thread) -> Thread
    ensures { result ≡ after f t }
{
    match f {
        Fate::Stays => t,
        Fate::Given(i) => woken(t, Some(WaitResult::Signaled(i))),
        Fate::TimedOut => woken(t, Some(WaitResult::TimedOut)),
        Fate::Slept => woken(t, t.wait_result),
    }
}

fn is_over(f: Fate) -> bool
    ensures { result ≡ is_over f }
{
    !matches!(f, Fate::Stays)
}

// A wait for all takes every object, one for any the one at the index. Refused if a count does not fit any more. The
// block is left open then, as by `take_list`.
#[tactic(auto, using(crate::proofs::Turns::takings))]
fn take_given(block: &mut Block, t: Thread, i: u32, w: u32) -> Result<(), Refusal>
    requires block_value { sound? block.old ≡ true }
    requires live { Live (dec_block block.old).threads w }
    ensures value { result ≡ unless_found
        (pick (acquires (dec_block block.old).objects (def.taken t i) w).overflow 8 0) tt }
    ensures block_after { (result ≡ Ok tt)
        → dec_block block.new ≡ with_threads (dec_block block.old) (dec_block block.old).threads
        (acquires (dec_block block.old).objects (def.taken t i) w) }
    ensures block_after_2 { sound? block.new ≡ true }
{
    if t.wait_all {
        return take::take_list(block, list::first(&t.wait_objects, t.wait_count), w);
    }
    take::take(block, take::object_at(&t.wait_objects, i), w)
}

// Refused if a count does not fit any more. The block is left open then, as by `take_list`.
#[tactic(auto, using(crate::proofs::Turns::takings))]
fn take_for(block: &mut Block, f: Fate, t: Thread, w: u32) -> Result<(), Refusal>
    requires block_value { sound? block.old ≡ true }
    requires live { Live (dec_block block.old).threads w }
    ensures value { result ≡ unless_found (pick (took f (dec_block block.old).objects t w).overflow 8 0) tt }
    ensures block_after { (result ≡ Ok tt)
        → dec_block block.new ≡ with_threads (dec_block block.old) (dec_block block.old).threads
        (took f (dec_block block.old).objects t w) }
    ensures block_after_2 { sound? block.new ≡ true }
{
    match f {
        Fate::Given(i) => take_given(block, t, i, w),
        Fate::Stays | Fate::TimedOut | Fate::Slept => Ok(()),
    }
}

// The turn of thread i. Refused if a count does not fit any more; part of the turn is done then. The block is left
// open, since the pass refuses and puts back a copy.
#[tactic(auto, using(crate::proofs::Turns::turns))]
fn try_wait(block: &mut Block, i: u32, tick: Ticks) -> Result<(), Refusal>
    requires block_value { sound? block.old ≡ true }
    requires i_bound { i < 32 }
    ensures value { result ≡ unless_found
        (pick (def.try_wait tick.0 (waits_of (dec_block block.old)) i).objects.overflow 8 0) tt }
    ensures block_after { (result ≡ Ok tt)
        → dec_block block.new ≡ during (dec_block block.old) (def.try_wait tick.0 (waits_of (dec_block block.old)) i) }
    ensures block_after_2 { (result ≡ Ok tt) → sound? block.new ≡ true }
{
    let t = read::thread_at(block, i);
    let list = list::first(&t.wait_objects, t.wait_count);
    let found = wait::satisfied_at(block, i, t.wait_all, list);
    let f = fate::fate_of(t, found, tick);
    if !is_over(f) {
        return Ok(());
    }
    take_for(block, f, t, i)?;
    release_list(block, list);
    write::put_thread(block, i, tried(f, t));
    Ok(())
}

// Refused if a count does not fit any more, with part of it done. The block is left open then: the pass refuses and
// puts back its copy.
#[tactic(auto, using(crate::proofs::Turns::tries))]
pub fn try_waits(block: &mut Block, tick: Ticks) -> Result<(), Refusal>
    requires block_value { sound? block.old ≡ true }
    ensures value { result ≡ unless_found (pick (pass.tried (dec_block block.old) tick.0).objects.overflow 8 0) tt }
    ensures block_after { (result ≡ Ok tt)
        → dec_block block.new ≡ during (dec_block block.old) (pass.tried (dec_block block.old) tick.0) }
    ensures block_after_2 { (result ≡ Ok tt) → sound? block.new ≡ true }
{
    slots::fire(block, tick)?;
    for i in 0..32 {
        try_wait(block, i, tick)?;
    }
    slots::clear_pulses(block);
    Ok(())
}
