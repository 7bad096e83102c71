// What letting go of a mutex would do without a pass (`quiet_release`), read from the block where it lies.
ghost use Rattle.std.specs.Prelude.{◌≡◌, not, eqb, leb};
ghost use Rattle.laws.specs.Logic.{◌and◌, ◌or◌};
ghost use Rattle.block.specs.Block.{dec_block};
ghost use Rattle.sound.specs.View.{ids};
ghost use Rattle.kernel.specs.NextEvent.{contains};
ghost use Rattle.pass.specs.Signal.{any_pulsed};
ghost use Rattle.pass.specs.Timers.{timer_due};
ghost use Rattle.pass.specs.Asks as def;
ghost use Rattle.quiet_release.specs.Alone.{alone};

use asked::open;
use block::{Block, record};
use pass::Release;
use rows::read;
use scheduler::run;
use signal::event;
use types::object::KObject;
use types::thread::{Thread, ThreadStatus};
use units::{Handle, ObjectId, Ticks};

// The thread is Running, has not waited, is not starving, and has no result or call left.
fn runs_alone(t: Thread, tick: Ticks) -> bool
    ensures { result ≡ alone t tick.0 }
{
    pick::is_running(t.status)
        && !t.waited
        && !run::starves(t.running_since, tick)
        && t.wait_result.is_none()
        && t.wait_syscall.is_none()
}

// No pulse waits for a pass, and no timer is due.
fn none_due(b: &Block, tick: Ticks) -> bool
    ensures { result ≡ (not (any_pulsed (dec_block b.now).objects.slots) and not (timer_due tick.0 (dec_block b.now).objects.slots)) }
{
    for i in 0..128 {
        if due::may_change(record::slot_at(b, i), tick) {
            return false;
        }
    }
    true
}

#[tactic(auto, using(laws::specs::Logic::or_yes, laws::specs::Logic::or_no))]
fn not_urgent(c: u32, p: u32, i: u32, t: Thread) -> bool
    ensures { result ≡ (eqb i c or leb p t.priority) }
{
    i == c || p <= t.priority
}

fn not_waiting(o: ObjectId, t: Thread) -> bool
    ensures { result ≡ not (contains (ids t.wait_objects) o.0) }
{
    !event::contains_id(t.wait_objects, o)
}

fn calm(o: ObjectId, c: u32, p: u32, i: u32, t: Thread) -> bool
    ensures { result ≡ def.calm o.0 c p i t t.status }
{
    match t.status {
        ThreadStatus::Running | ThreadStatus::Ready => not_urgent(c, p, i, t),
        ThreadStatus::WaitSync => not_waiting(o, t),
        ThreadStatus::Dead
        | ThreadStatus::Sleeping
        | ThreadStatus::WaitArbiter
        | ThreadStatus::Dormant => true,
    }
}

#[tactic(auto, using(crate::proofs::Calm::turns))]
fn all_calm(b: &Block, o: ObjectId, c: u32, p: u32) -> bool
    ensures { result ≡ def.calm_from o.0 c p 0 (dec_block b.now).threads }
{
    for i in 0..32 {
        if !calm(o, c, p, i as u32, record::thread_at(b, i)) {
            return false;
        }
    }
    true
}

// A number past the places names no thread.
fn frees_quietly(b: &Block, o: ObjectId, tick: Ticks) -> Option<Release>
    ensures { result ≡ def.frees_quietly (dec_block b.now).current_thread (dec_block b.now) o.0 tick.0 }
{
    let c = read::current(b)?;
    if 32 <= c {
        return None;
    }
    let t = read::thread_at(b, c);
    if runs_alone(t, tick) && none_due(b, tick) && all_calm(b, o, c, t.priority) {
        Some(Release::Frees(o))
    } else {
        None
    }
}

pub fn quiet_release(b: &Block, h: Handle, tick: Ticks) -> Option<Release>
    ensures { result ≡ def.quiet_release (dec_block b.now) h.0 tick.0 }
{
    let o = open::open_object(b, h);
    let KObject::Mutex(m) = read::slot_at(b, o).object else {
        return None;
    };
    if 1 < m.lock_count {
        return Some(Release::CountsDown(o));
    }
    frees_quietly(b, o, tick)
}
