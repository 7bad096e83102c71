// The end of all pulses, after the pass has tried every thread.
ghost use Rattle.std.specs.Prelude.{◌≡◌, false};
ghost use Rattle.pass.specs.Signal as def;

use types::object::{KObject, Slot};
use types::sync::{Event, Timer};

pub fn quiet_event(e: Event) -> Event
    ensures { result ≡ record { reset_type = e.reset_type; signaled = false } }
{
    Event {
        signaled: false,
        ..e
    }
}

pub fn quiet_timer(t: Timer) -> Timer
    ensures { result ≡ record { reset_type = t.reset_type; signaled = false; fire_at = t.fire_at; interval = t.interval } }
{
    Timer {
        signaled: false,
        ..t
    }
}

fn quieted(x: KObject) -> KObject
    ensures { result ≡ def.quieted x }
{
    match x {
        KObject::Event(e) => KObject::Event(quiet_event(e)),
        KObject::Timer(t) => KObject::Timer(quiet_timer(t)),
        other => other,
    }
}

pub fn unpulsed_slot(s: Slot) -> Slot
    ensures { result ≡ def.unpulsed_slot s }
{
    if s.pulsed {
        return Slot {
            object: quieted(s.object),
            pulsed: false,
            ..s
        };
    }
    s
}
