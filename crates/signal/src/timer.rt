// Timers that come due (`fire_timers`, `timer_due`).
ghost use Rattle.std.specs.Prelude.{◌≡◌, ◌≤◌, leb};
ghost use Rattle.laws.specs.Logic.{◌and◌, ◌or◌};
ghost use Rattle.kernel.specs.NextEvent.{due_of};
ghost use Rattle.pass.specs.Signal.{is_pulse};
ghost use Rattle.pass.specs.Timers as def;

use crate::event;
use kernel::next_event;
use types::object::{KObject, Slot};
use types::sync::Timer;
use units::Ticks;

pub fn due_by(at: Option<Ticks>, tick: Ticks) -> bool
    ensures { result ≡ def.due_by at tick.0 }
{
    at.is_some_and(|t| t.0 <= tick.0)
}

// The tick, plus what is left of the period under way: the first period after the tick.
fn due_again(at: Ticks, interval: Ticks, tick: Ticks) -> Option<Ticks>
    requires { at.0 ≤ tick.0 }
    ensures { result ≡ def.due_again at.0 interval.0 tick.0 }
{
    if interval.0 == 0 {
        return None;
    }
    let left = interval.0 - (tick.0 - at.0) % interval.0;
    Some(Ticks(tick.0.saturating_add(left)))
}

fn fired_timer(t: Timer, at: Ticks, tick: Ticks) -> Timer
    requires { at.0 ≤ tick.0 }
    ensures { result ≡ def.fired_timer t at.0 tick.0 }
{
    Timer {
        signaled: true,
        fire_at: due_again(at, t.interval, tick),
        ..t
    }
}

#[tactic(auto, using(laws::specs::Logic::or_yes, laws::specs::Logic::or_no))]
fn fired_due(s: Slot, t: Timer, at: Ticks, tick: Ticks) -> Slot
    requires { at.0 ≤ tick.0 }
    ensures { result ≡ record { object = KObject.Timer (def.fired_timer t at.0 tick.0); refcount = s.refcount; pulsed = s.pulsed or is_pulse t.reset_type } }
{
    Slot {
        object: KObject::Timer(fired_timer(t, at, tick)),
        pulsed: s.pulsed || event::is_pulse(t.reset_type),
        ..s
    }
}

fn fired_at(s: Slot, t: Timer, tick: Ticks) -> Slot
    ensures { result ≡ def.fired_at s t t.fire_at tick.0 }
{
    match t.fire_at {
        Some(at) if at.0 <= tick.0 => fired_due(s, t, at, tick),
        _ => s,
    }
}

pub fn fired_slot(tick: Ticks, s: Slot) -> Slot
    ensures { result ≡ def.fired_slot tick.0 s }
{
    match s.object {
        KObject::Timer(t) => fired_at(s, t, tick),
        _ => s,
    }
}

#[tactic(auto, using(laws::specs::Logic::and_yes, laws::specs::Logic::and_no))]
fn over_by(at: Ticks, interval: Ticks, tick: Ticks) -> bool
    ensures { result ≡ (leb at.0 tick.0 and def.periods_over at.0 interval.0 tick.0) }
{
    at.0 <= tick.0 && 0 < interval.0 && u64::MAX <= (tick.0 - at.0) / interval.0
}

fn over_at(t: Timer, tick: Ticks) -> bool
    ensures { result ≡ def.over_at t.fire_at t.interval.0 tick.0 }
{
    t.fire_at.is_some_and(|at| over_by(at, t.interval, tick))
}

pub fn slot_over(s: Slot, tick: Ticks) -> bool
    ensures { result ≡ def.over_of s.object tick.0 }
{
    match s.object {
        KObject::Timer(t) => over_at(t, tick),
        _ => false,
    }
}

pub fn slot_due(s: Slot, tick: Ticks) -> bool
    ensures { result ≡ def.due_by (due_of s.object) tick.0 }
{
    due_by(next_event::due_of(s.object), tick)
}
