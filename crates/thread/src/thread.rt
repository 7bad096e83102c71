// One part of a thread anew (thread.rs).
ghost use Rattle.std.specs.Prelude.{◌≡◌};
ghost use Rattle.thread.specs.Thread.{clear_wait, with_status, with_result};

use types::thread::{Thread, ThreadStatus, WAIT_LIST, WaitResult, WaitSyscall};
use units::ObjectId;

// Everything that a wait left behind goes.
pub fn clear_wait(t: &mut Thread)
    ensures { t.new ≡ clear_wait t.old }
{
    *t = Thread {
        wait_objects: [ObjectId(0); WAIT_LIST],
        wait_count: 0,
        wait_all: false,
        wakeup_at: None,
        wait_address: None,
        ..*t
    };
}

// The same for callers by value.
pub fn without_wait(t: Thread) -> Thread
    ensures { result ≡ clear_wait t }
{
    let mut u = t;
    clear_wait(&mut u);
    u
}

pub fn with_status(t: Thread, status: ThreadStatus) -> Thread
    ensures { result ≡ with_status t status }
{
    Thread { status, ..t }
}

pub fn with_result(t: Thread, res: Option<WaitResult>, call: Option<WaitSyscall>) -> Thread
    ensures { result ≡ with_result t res call }
{
    Thread {
        wait_result: res,
        wait_syscall: call,
        ..t
    }
}
