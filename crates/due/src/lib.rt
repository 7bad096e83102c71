// Timers that come due, looked for and caught up with in a block where it lies: a store by value would be copied.
#![tactic(auto)]

ghost use Rattle.std.specs.Prelude.{◌≡◌, true, false, map, ◌≤◌, length};
ghost use Rattle.laws.specs.Logic.{◌or◌};
ghost use Rattle.laws.specs.All.{All};
ghost use Rattle.laws.specs.Tally.{tally_all};
ghost use Rattle.types.specs.Thread.{wait_list};
ghost use Rattle.block.specs.Block.{enc_block, dec_block};
ghost use Rattle.sound.specs.Question.{sound?};
ghost use Rattle.object.specs.Slots.{with_slots};
ghost use Rattle.kernel.specs.NextEvent.{due_of};
ghost use Rattle.pass.specs.Timers.{due_by, fired_slot, timer_due, lost_slot};
ghost use Rattle.signal.specs.Marks.{sync_list, sync_lists, lost_marked};
ghost use Rattle.svc.specs.Call.{with_objects};
ghost use Rattle.svc.specs.Timers.{caught_up};

use block::{Block, record};
use rows::write;
use signal::{catch_up, timer};
use types::object::Slot;
use units::{ObjectId, Ticks};

// Whether a timer comes due by the tick.
pub fn timer_due(b: &Block, tick: Ticks) -> bool
    ensures { result ≡ timer_due tick.0 (dec_block b.now).objects.slots }
{
    for i in 0..128 {
        if timer::slot_due(record::slot_at(b, i), tick) {
            return true;
        }
    }
    false
}

// Whether the count of periods of a timer that is due does not fit. A timer that is not due costs no division. With the
// question to each slot as a closure, the contract of one function for this and `timer_due` would have to say what the
// closure answers of every slot.
pub fn over(b: &Block, tick: Ticks) -> bool
    ensures { result ≡ (caught_up (dec_block b.now) tick.0).objects.overflow }
{
    for i in 0..128 {
        if timer::slot_over(record::slot_at(b, i), tick) {
            return true;
        }
    }
    false
}

// One more for each object that a thread waits on.
fn mark_lists(m: &mut [u32; 129], b: &Block)
    ensures m_after { m.new ≡ tally_all 129 m.old (sync_lists (dec_block b.now).threads) }
    ensures all { All (λ t. length (sync_list t) ≤ wait_list) (dec_block b.now).threads }
{
    for i in 0..32 {
        catch_up::mark_list(m, record::thread_at(b, i));
    }
}

// Whether catching up may change the slot: a pulse waits for a pass, or a timer is due.
#[tactic(auto, using(laws::specs::Logic::or_yes, laws::specs::Logic::or_no))]
pub fn may_change(s: Slot, tick: Ticks) -> bool
    ensures { result ≡ (s.pulsed or due_by (due_of s.object) tick.0) }
{
    s.pulsed || timer::slot_due(s, tick)
}

fn caught_slot(waited: bool, s: Slot, tick: Ticks) -> Slot
    ensures { result ≡ lost_slot waited (fired_slot tick.0 s) }
{
    catch_up::lost_slot(waited, timer::fired_slot(tick, s))
}

// A slot is read before it is written, and a write leaves the slots after it alone, so each is read as it was.
fn catch_up_slots(b: &mut Block, m: &[u32; 129], tick: Ticks)
    requires b_value { sound? b.old ≡ true }
    ensures { b.new ≡ enc_block (with_objects (dec_block b.old)
        (with_slots (dec_block b.old).objects
        (lost_marked m.now 1 (map (fired_slot tick.0) (dec_block b.old).objects.slots)))) }
{
    for i in 0..128 {
        let old = record::slot_at(b, i);
        if may_change(old, tick) {
            let x = caught_slot(0 < m[i + 1], old, tick);
            write::put_slot(b, ObjectId((i + 1) as u32), x);
        }
    }
}

// Timers that came due by the tick fire, and a pulse that no thread waits on is lost. If none came due nothing is
// written.
pub fn catch_up(b: &mut Block, tick: Ticks)
    requires b_value { sound? b.old ≡ true }
    requires tick_value { (caught_up (dec_block b.old) tick.0).objects.overflow ≡ false }
    ensures b_after { dec_block b.new ≡ caught_up (dec_block b.old) tick.0 }
    ensures b_after_2 { sound? b.new ≡ true }
{
    if !timer_due(b, tick) {
        return;
    }
    let mut m = [0u32; 129];
    mark_lists(&mut m, b);
    catch_up_slots(b, &m, tick);
}
