// What becomes of a blocked thread in a pass (the looking part of `try_satisfy_wait`).
ghost use Rattle.std.specs.Prelude.{◌≡◌};
ghost use Rattle.pass.specs.Timers.{due_by};
ghost use Rattle.pass.specs.Waits as def;

use pass::Fate;
use types::thread::{Thread, ThreadStatus};
use units::Ticks;

// Of the thread t, for which found is the index that its wait gives now. Satisfaction before time-out.
pub fn fate_of(t: Thread, found: Option<u32>, tick: Ticks) -> Fate
    ensures { result ≡ def.fate_as t.status found (due_by t.wakeup_at tick.0) }
{
    let late = signal::timer::due_by(t.wakeup_at, tick);
    match (t.status, found) {
        (ThreadStatus::WaitSync, Some(i)) => Fate::Given(i),
        (ThreadStatus::WaitSync, None) if late => Fate::TimedOut,
        (ThreadStatus::WaitArbiter, _) if late => Fate::TimedOut,
        (ThreadStatus::Sleeping, _) if late => Fate::Slept,
        _ => Fate::Stays,
    }
}
