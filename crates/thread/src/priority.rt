// The priority of a thread changes. A number past the places names no thread.
ghost use Rattle.std.specs.Prelude.{◌≡◌};
ghost use Rattle.thread.specs.Thread.{with_priority};

use types::thread::Thread;

pub fn with_priority(t: Thread, priority: u32) -> Thread
    ensures { result ≡ with_priority t priority }
{
    Thread { priority, ..t }
}
