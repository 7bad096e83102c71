// A thread parks at an address (the waiting kinds of `arbitrate_address`).
ghost use Rattle.std.specs.Prelude.{◌≡◌, ◌+◌, ◌<◌, ltb};
ghost use Rattle.svc.specs.Arbiter as def;
ghost use Rattle.svc.specs.Sync.{biased};
ghost use Rattle.arbiter.specs.Park.{park_time_in, word_after, over_below};

use types::thread::{Thread, ThreadStatus, WaitSyscall};
use units::{Nanos, Ticks};

// Less than, as signed words.
pub fn is_below(x: u32, y: u32) -> bool
    ensures { result ≡ ltb (biased x) (biased y) }
{
    x.cast_signed() < y.cast_signed()
}

// A time-out of 0 counts, a negative one waits for good.
#[tactic(auto, using(laws::specs::Logic::and_yes, laws::specs::Logic::and_no))]
pub fn park_time(timed: bool, nanos: Nanos) -> Option<Ticks>
    ensures { result ≡ park_time_in timed nanos.0 }
{
    if timed && !nanos.is_negative() {
        return Some(units::nanos_to_ticks(nanos));
    }
    None
}

// One less, as a signed word, if the kind decrements.
pub fn word_after(decrements: bool, word: u32) -> Option<u32>
    ensures { result ≡ word_after decrements word }
{
    if decrements {
        return Some(word.wrapping_sub(1));
    }
    None
}

// One less than the least signed word does not fit.
#[tactic(auto, using(laws::specs::Logic::and_yes, laws::specs::Logic::and_no))]
pub fn over_below(decrements: bool, word: u32) -> bool
    ensures { result ≡ over_below decrements word }
{
    decrements && word == 2147483648
}

// An older wait's result stays.
pub fn parked(t: Thread, a: u32, wake: Option<Ticks>) -> Thread
    ensures { result ≡ def.parked t a wake }
{
    Thread {
        status: ThreadStatus::WaitArbiter,
        wakeup_at: wake,
        wait_address: Some(a),
        wait_syscall: Some(WaitSyscall::ArbitrateAddress),
        ..thread::thread::without_wait(t)
    }
}
