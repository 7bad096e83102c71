// Timers caught up with before a guest touches one: a pulse that no thread waits on is lost (`catch_up_timers`).
ghost use Rattle.std.specs.Prelude.{◌≡◌, ◌≤◌, length};
ghost use Rattle.laws.specs.Tally.{tally};
ghost use Rattle.types.specs.Thread.{wait_list};
ghost use Rattle.pass.specs.Timers as def;
ghost use Rattle.signal.specs.Marks.{sync_list};

use crate::{event, pulse};
use types::object::{KObject, Slot};
use types::thread::Thread;

pub fn lost_object(x: KObject) -> KObject
    ensures { result ≡ def.lost_object x }
{
    match x {
        KObject::Timer(t) => KObject::Timer(pulse::quiet_timer(t)),
        other => other,
    }
}

#[tactic(auto, using(laws::specs::Logic::and_yes, laws::specs::Logic::and_no))]
pub fn lost_slot(waited: bool, s: Slot) -> Slot
    ensures { result ≡ def.lost_slot waited s }
{
    if s.pulsed && !waited {
        return Slot {
            object: lost_object(s.object),
            pulsed: false,
            ..s
        };
    }
    s
}

// One more for each object that the thread waits on. `mark_list` of next_event.rt asks for another status; what they
// share is `tally_list`.
#[tactic(auto, unfolding(laws::specs::Tally::tally))]
pub fn mark_list(m: &mut [u32; 129], t: Thread)
    ensures m_after { m.new ≡ tally 129 m.old (sync_list t) }
    ensures t_len_bound { length (sync_list t) ≤ wait_list }
{
    if event::waits_sync(t.status) {
        tally::tally_list(m, t.wait_objects);
    }
}
