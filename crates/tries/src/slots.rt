// What a pass does to every slot. A slot is read before it is written, and a write leaves those after it alone.
ghost use Rattle.std.specs.Prelude.{◌≡◌, true, Ok};
ghost use Rattle.laws.specs.Logic.{pick};
ghost use Rattle.types.specs.Refusal.{unless_found};
ghost use Rattle.block.specs.Block.{dec_block};
ghost use Rattle.sound.specs.Question.{sound?};
ghost use Rattle.thread.specs.Threads.{with_threads};
ghost use Rattle.pass.specs.Signal.{clear_pulses};
ghost use Rattle.pass.specs.Timers.{any_over, fire_timers};

use block::{Block, record};
use rows::write;
use signal::{pulse, timer};
use types::refusal::Refusal;
use units::{ObjectId, Ticks};

// Timers that are due fire. Refused if a count of periods does not fit; some have fired then. The block is left open,
// since the pass refuses and puts back a copy.
#[tactic(auto, using(crate::proofs::Fired::fires))]
pub fn fire(block: &mut Block, tick: Ticks) -> Result<(), Refusal>
    requires block_value { sound? block.old ≡ true }
    ensures value { result ≡ unless_found (pick (any_over tick.0 (dec_block block.old).objects.slots) 8 0) tt }
    ensures block_after { (result ≡ Ok tt)
        → dec_block block.new ≡ with_threads (dec_block block.old) (dec_block block.old).threads
        (fire_timers (dec_block block.old).objects tick.0) }
    ensures block_after_2 { (result ≡ Ok tt) → sound? block.new ≡ true }
{
    for i in 0..128 {
        let old = record::slot_at(block, i);
        if timer::slot_due(old, tick) {
            if timer::slot_over(old, tick) {
                return Err(Refusal::Overflow);
            }
            write::put_slot(
                block,
                ObjectId((i + 1) as u32),
                timer::fired_slot(tick, old),
            );
        }
    }
    Ok(())
}

// Pulses end.
pub fn clear_pulses(block: &mut Block)
    requires block_value { sound? block.old ≡ true }
    ensures block_after { dec_block block.new ≡ with_threads (dec_block block.old) (dec_block block.old).threads
        (clear_pulses (dec_block block.old).objects) }
    ensures block_after_2 { sound? block.new ≡ true }
{
    for i in 0..128 {
        let old = record::slot_at(block, i);
        if old.pulsed {
            write::put_slot(block, ObjectId((i + 1) as u32), pulse::unpulsed_slot(old));
        }
    }
}
