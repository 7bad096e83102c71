// How long a thread has run, and who has the core. None changes nothing, and neither does a number past the places.
ghost use Rattle.std.specs.Prelude.{◌≡◌, ◌-◌, ltb};
ghost use Rattle.pass.specs.Schedule as def;
ghost use Rattle.scheduler.specs.Switch.{marked, take_core_if};

use types::thread::{Thread, ThreadStatus};
use units::Ticks;

fn with_run(t: Thread, waited: bool, since: Ticks) -> Thread
    ensures { result ≡ def.with_run t waited since.0 }
{
    Thread {
        running_since: since,
        waited,
        ..t
    }
}

fn marked(t: Thread) -> Thread
    ensures { result ≡ marked t }
{
    if pick::is_runnable(t.status) {
        return t;
    }
    with_run(t, true, t.running_since)
}

// The current thread has waited if it cannot run. This and the three below each change one thread; one function over the
// change would need in its contract what the change makes of each thread, and be no shorter at its calls.
#[tactic(auto, using(crate::proofs::Places::mark_here, crate::proofs::Places::mark_far))]
pub fn mark_waited(ts: &mut [Thread; 32], c: Option<u32>)
    ensures { ts.new ≡ def.mark_waited ts.old c }
{
    let Some(t) = c else {
        return;
    };
    if t < 32 {
        ts[t as usize] = marked(ts[t as usize]);
    }
}

fn begun(t: Thread, tick: Ticks) -> Thread
    ensures { result ≡ def.begun t tick.0 }
{
    if t.waited {
        with_run(t, false, tick)
    } else {
        t
    }
}

// A thread that has waited begins to run.
#[tactic(auto, using(crate::proofs::Places::begin_far))]
pub fn begin_run(ts: &mut [Thread; 32], c: Option<u32>, tick: Ticks)
    ensures { ts.new ≡ def.begin_run ts.old c tick.0 }
{
    let Some(t) = c else {
        return;
    };
    if t < 32 {
        ts[t as usize] = begun(ts[t as usize], tick);
    }
}

// Longer than four frames; a tick before the start counts as none.
pub fn starves(since: Ticks, tick: Ticks) -> bool
    ensures { result ≡ ltb def.starvation_ticks (tick.0 - since.0) }
{
    17924544 < tick.0.saturating_sub(since.0)
}

// A place without a thread reads as one that has run since tick 0.
#[tactic(auto, using(crate::proofs::Places::since_far))]
pub fn starving(ts: &[Thread; 32], c: Option<u32>, tick: Ticks) -> bool
    ensures { result ≡ def.starving ts.now c tick.0 }
{
    let Some(t) = c else {
        return false;
    };
    if t < 32 {
        return starves(ts[t as usize].running_since, tick);
    }
    starves(Ticks(0), tick)
}

fn leaves(t: Thread) -> Thread
    ensures { result ≡ def.leaves t }
{
    if pick::is_running(t.status) {
        return thread::thread::with_status(t, ThreadStatus::Ready);
    }
    t
}

// A Running thread that leaves the core is Ready.
#[tactic(auto, using(crate::proofs::Places::leave_far))]
pub fn leave_core(ts: &mut [Thread; 32], c: Option<u32>)
    ensures { ts.new ≡ def.leave_core ts.old c }
{
    let Some(t) = c else {
        return;
    };
    if t < 32 {
        ts[t as usize] = leaves(ts[t as usize]);
    }
}

#[tactic(auto, using(crate::proofs::Places::take_far))]
pub fn take_core(ts: &mut [Thread; 32], n: Option<u32>)
    ensures { ts.new ≡ take_core_if ts.old n }
{
    let Some(t) = n else {
        return;
    };
    if t < 32 {
        ts[t as usize] = thread::thread::with_status(ts[t as usize], ThreadStatus::Running);
    }
}
