// What setting and cancelling make of a timer (`set_timer`, `cancel_timer` of svc.rs).
ghost use Rattle.std.specs.Prelude.{◌≡◌, None};
ghost use Rattle.svc.specs.Call.{pair};
ghost use Rattle.svc.specs.Timers as def;
ghost use Rattle.timer_calls.specs.Kinds.{no_timer, timer_of};

use svc::Registers;
use types::object::KObject;
use types::sync::{ResetType, Timer};
use units::{Nanos, Ticks};

fn no_timer() -> Timer
    ensures { result ≡ no_timer }
{
    Timer {
        reset_type: ResetType::OneShot,
        signaled: false,
        fire_at: None,
        interval: Ticks(0),
    }
}

// All 0 for an object of another kind, which the caller has ruled out: `set_by` promises something of every object.
fn timer_of(x: KObject) -> Timer
    ensures { result ≡ timer_of x }
{
    match x {
        KObject::Timer(t) => t,
        _ => no_timer(),
    }
}

// Two registers as nanoseconds; below 0 counts as 0.
fn delay(low: u32, high: u32) -> Nanos
    ensures { result.0 ≡ def.not_below (pair low high) }
{
    let n = Nanos::from_words(low, high);
    if n.is_negative() { Nanos::ZERO } else { n }
}

fn set_to(t: Timer, initial: Nanos, interval: Nanos, tick: Ticks) -> Timer
    ensures { result ≡ def.set_to t initial.0 interval.0 tick.0 }
{
    let first = units::nanos_to_ticks(initial);
    Timer {
        signaled: false,
        fire_at: Some(Ticks(tick.0.saturating_add(first.0))),
        interval: units::nanos_to_ticks(interval),
        ..t
    }
}

// The timer x, set by the registers.
pub fn set_by(x: KObject, r: Registers, tick: Ticks) -> Timer
    ensures { result ≡ def.set_to (timer_of x) (def.not_below (pair r.r2 r.r3))
        (def.not_below (pair r.r1 r.r4)) tick.0 }
{
    set_to(timer_of(x), delay(r.r2, r.r3), delay(r.r1, r.r4), tick)
}

fn stopped(t: Timer) -> Timer
    ensures { result ≡ record {
      reset_type = t.reset_type;
      signaled = t.signaled;
      fire_at = None;
      interval = t.interval;
    } }
{
    Timer { fire_at: None, ..t }
}

pub fn cancelled(x: KObject) -> KObject
    ensures { result ≡ def.cancelled x }
{
    match x {
        KObject::Timer(t) => KObject::Timer(stopped(t)),
        other => other,
    }
}
