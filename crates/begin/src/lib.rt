// The current thread waits or sleeps (`begin_wait`, `sleep_current`).
#![tactic(auto)]

ghost use Rattle.std.specs.Prelude.{◌≡◌};
ghost use Rattle.pass.specs.Waits as def;

use types::thread::{Thread, ThreadStatus, WAIT_LIST};
use units::{ObjectId, Ticks};

pub fn wake_tick(timeout: Option<Ticks>, tick: Ticks) -> Option<Ticks>
    ensures { result ≡ def.wake_tick timeout tick.0 }
{
    timeout.map(|d| Ticks(tick.0.saturating_add(d.0)))
}

pub fn waiting(
    t: Thread,
    l: [ObjectId; WAIT_LIST],
    n: u32,
    all: bool,
    wake: Option<Ticks>,
) -> Thread
    ensures { result ≡ def.waiting t l n all wake }
{
    Thread {
        status: ThreadStatus::WaitSync,
        wait_objects: l,
        wait_count: n,
        wait_all: all,
        wakeup_at: wake,
        wait_result: None,
        ..t
    }
}

pub fn sleeping(t: Thread, wake: Ticks) -> Thread
    ensures { result ≡ def.sleeping t wake.0 }
{
    Thread {
        status: ThreadStatus::Sleeping,
        wakeup_at: Some(wake),
        ..thread::thread::without_wait(t)
    }
}
