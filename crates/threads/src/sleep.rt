// `sleep_thread` (svc.rs), in the block.
ghost use Rattle.std.specs.Prelude.{◌≡◌, true, length};
ghost use Rattle.block.specs.Block.{dec_block};
ghost use Rattle.sound.specs.Question.{sound?};
ghost use Rattle.svc.specs.Threads as def;
ghost use Rattle.rows.specs.Holds.{Holds};
ghost use Rattle.outcome.specs.Outcome.{outcome, left};

use crate::change::change;
use block::Block;
use outcome::Outcome;
use rows::read;
use svc::Registers;
use types::refusal::Refusal;
use types::thread::Thread;
use units::{Nanos, Ticks};

// How long the thread sleeps; a yield of 0 nanoseconds that nobody could use, and at which nothing is due, keeps the
// core.
#[tactic(auto, using(crate::proofs::Found::yields))]
fn sleep_ticks(block: &Block, nanos: Nanos, tick: Ticks) -> Option<Ticks>
    ensures { result ≡ def.sleep_ticks (dec_block block.now) nanos.0 tick.0 }
{
    if !nanos.is_zero() {
        return Some(units::nanos_to_ticks(nanos));
    }
    let ts = block::record::read_all(block, 128);
    if pick::others_ready(read::current(block), &ts) {
        return Some(Ticks(20000));
    }
    if signal::timer::due_by(asked::event::next_event(block), tick) {
        return Some(Ticks(0));
    }
    None
}

// The current thread goes to sleep for this time; without one it counts as running since the tick.
fn put_slept(block: &mut Block, time: Option<Ticks>, tick: Ticks)
    requires block_value { sound? block.old ≡ true }
    ensures { Holds block.new (def.sleep_for time (dec_block block.old) tick.0) }
{
    let Some(c) = read::current(block) else {
        return;
    };
    match time {
        None => change(
            block,
            c,
            |t| Thread {
                running_since: tick,
                ..t
            },
        ),
        Some(d) => change(
            block,
            c,
            |t| begin::sleeping(t, Ticks(tick.0.saturating_add(d.0))),
        ),
    }
}

// r0 and r1 nanoseconds, without a sign.
pub fn sleep_thread(block: &mut Block, r: Registers, tick: Ticks) -> Result<Outcome, Refusal>
    requires block_value { sound? block.old ≡ true }
    ensures value { result ≡ outcome (def.sleep_thread (dec_block block.old) r tick.0) }
    ensures block_after { block.new ≡ left (def.sleep_thread (dec_block block.old) r tick.0) block.old }
{
    outcome::room(false, outcome::out_of_handles(block))?;
    let time = sleep_ticks(block, Nanos::from_words(r.r0, r.r1), tick);
    put_slept(block, time, tick);
    Ok(outcome::done())
}
