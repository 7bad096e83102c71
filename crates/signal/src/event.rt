// Events (`signal_event`, `clear_event`).
ghost use Rattle.std.specs.Prelude.{◌≡◌};
ghost use Rattle.laws.specs.Logic.{◌and◌};
ghost use Rattle.sound.specs.View.{ids};
ghost use Rattle.kernel.specs.NextEvent.{contains};
ghost use Rattle.pass.specs.Signal as def;

use crate::pulse;
use types::object::{KObject, Slot};
use types::sync::{Event, ResetType};
use types::thread::{Thread, ThreadStatus, WAIT_LIST};
use units::ObjectId;

pub fn waits_sync(s: ThreadStatus) -> bool
    ensures { result ≡ def.waits_sync s }
{
    matches!(&s, ThreadStatus::WaitSync)
}

pub fn contains_id(l: [ObjectId; WAIT_LIST], o: ObjectId) -> bool
    ensures { result ≡ contains (ids l) o.0 }
{
    l.contains(&o)
}

// The thread waits on the object.
#[tactic(auto, using(laws::specs::Logic::and_yes, laws::specs::Logic::and_no))]
pub fn waits_on(t: Thread, o: ObjectId) -> bool
    ensures { result ≡ (def.waits_sync t.status and contains (ids t.wait_objects) o.0) }
{
    waits_sync(t.status) && contains_id(t.wait_objects, o)
}

pub fn is_pulse(r: ResetType) -> bool
    ensures { result ≡ def.is_pulse r }
{
    matches!(&r, ResetType::Pulse)
}

#[tactic(auto, using(laws::specs::Logic::and_yes, laws::specs::Logic::and_no, laws::specs::Logic::or_yes, laws::specs::Logic::or_no))]
fn signaled_event(waited: bool, s: Slot, e: Event) -> Slot
    ensures { result ≡ def.signaled_slot waited s (KObject.Event e) }
{
    let pulse = is_pulse(e.reset_type);
    if pulse && !waited {
        return s;
    }
    Slot {
        object: KObject::Event(Event {
            signaled: true,
            ..e
        }),
        pulsed: s.pulsed || pulse,
        ..s
    }
}

pub fn signaled_slot(waited: bool, s: Slot, x: KObject) -> Slot
    ensures { result ≡ def.signaled_slot waited s x }
{
    match x {
        KObject::Event(e) => signaled_event(waited, s, e),
        _ => s,
    }
}

// `lost_object` does the same to timers, `cancelled` of `timer_calls` stops them: each is the one arm of its kind.
pub fn cleared_event(x: KObject) -> KObject
    ensures { result ≡ def.cleared_event x }
{
    match x {
        KObject::Event(e) => KObject::Event(pulse::quiet_event(e)),
        other => other,
    }
}
