// A signal at an address: threads parked there wake (the signalling kind of `arbitrate_address`).
// The arbiter's chain is walked by recursion with a falling allowance, so that a damaged chain ends too. The records
// are lent to each step of the walk, so that none copies them.
ghost use Rattle.std.specs.Prelude.{◌≡◌, ◌+◌, ◌<◌, ◌≤◌, eqb, set};
ghost use Rattle.laws.specs.Count.{one?};
ghost use Rattle.laws.specs.Walk.{walk};
ghost use Rattle.sound.specs.View.{waiter_nexts};
ghost use Rattle.object.specs.Ends.{links};
ghost use Rattle.svc.specs.Arbiter as def;
ghost use Rattle.arbiter.specs.Marks.{marked, more, stays_marked, count_marked, marks_by, marks_after, unlink_marked};

use object::waiters;
use object::waiters::Ends;
use types::object::Waiter;
use types::thread::{Thread, ThreadStatus, WaitResult};

// The marks of threads that are parked at the address, and of those that the signal wakes; others have 0. Numbers and
// no enum: `unlink_chain` promises the same of a table with any other number in it, which is as 0.
pub const PARKED: u32 = 1;

pub const WOKEN: u32 = 2;

// What becomes of a record: whether it stays in the chain, and how many threads are woken after it.
#[derive(Clone, Copy)]
pub struct Decision {
    pub stays: bool,
    pub woken: u32,
}

fn is_at(o: Option<u32>, a: u32) -> bool
    ensures { result ≡ def.is_at o a }
{
    o == Some(a)
}

fn waits_arbiter(s: ThreadStatus) -> bool
    ensures { result ≡ def.waits_arbiter s }
{
    matches!(&s, ThreadStatus::WaitArbiter)
}

#[tactic(auto, using(laws::specs::Logic::and_yes, laws::specs::Logic::and_no))]
pub fn parked_mark(t: Thread, a: u32) -> u32
    ensures { result ≡ one? (def.parked_at t a) }
{
    if waits_arbiter(t.status) && is_at(t.wait_address, a) {
        PARKED
    } else {
        0
    }
}

pub fn is_woken(m: u32) -> bool
    ensures { result ≡ eqb m 2 }
{
    m == WOKEN
}

// A number past the places has no mark.
fn is_marked(p: &[u32; 32], t: u32) -> bool
    ensures { result ≡ marked p.now t }
{
    t < 32 && p[t as usize] == PARKED
}

fn mark_woken(p: &mut [u32; 32], t: u32)
    ensures { p.new ≡ set p.old t 2 }
{
    if t < 32 {
        p[t as usize] = WOKEN;
    }
}

// A value below 0 wakes all.
#[tactic(auto, using(laws::specs::Logic::or_yes, laws::specs::Logic::or_no))]
fn more_to_wake(value: u32, n: u32) -> bool
    ensures { result ≡ more value n }
{
    value.cast_signed() < 0 || n < value
}

// The record x stays if it is for another address, or if its thread is parked here and enough are woken; n are so far.
// A thread that is not parked here left its record behind. The two tables, the address and the value are handed on one
// by one, as in the two walks: a struct of them would only be taken apart again here.
#[tactic(auto, using(crate::proofs::Wakes::decides))]
fn decide(ws: &[Waiter; 64], parked: &mut [u32; 32], a: u32, value: u32, n: u32, x: u32) -> Decision
    requires n_bound { n < 64 }
    ensures stays_value { result.stays ≡ stays_marked ws.now a value parked.old n x }
    ensures woken_value { result.woken ≡ count_marked ws.now a value parked.old n x }
    ensures parked_after { parked.new ≡ marks_by ws.now a value parked.old n x }
    ensures woken_bound { result.woken ≤ n + 1 }
{
    let w = waiters::waiter_at(ws, x);
    if w.address != a {
        return Decision {
            stays: true,
            woken: n,
        };
    }
    if !is_marked(parked, w.thread) {
        return Decision {
            stays: false,
            woken: n,
        };
    }
    if !more_to_wake(value, n) {
        return Decision {
            stays: true,
            woken: n,
        };
    }
    mark_woken(parked, w.thread);
    Decision {
        stays: false,
        woken: n + 1,
    }
}

// The chain from at without the records that wake their thread or were left behind, after n woken threads.
#[tactic(auto, using(crate::proofs::Wakes::walks))]
fn unlink_woken(
    ws: &mut [Waiter; 64],
    parked: &mut [u32; 32],
    a: u32,
    value: u32,
    n: u32,
    at: u32,
    left: u32,
    free: u32,
) -> Ends
    requires left_bound { n + left ≤ 64 }
    ensures result_after { links ws.new result
        ≡ unlink_marked ws.old a value parked.old n free (walk (waiter_nexts ws.old) left at) }
    ensures parked_after { parked.new ≡ marks_after ws.old a value parked.old n (walk (waiter_nexts ws.old) left at) }
{
    if at == 0 || left == 0 {
        return Ends { free, head: 0 };
    }
    let next = waiters::waiter_at(ws, at).next;
    let d = decide(ws, parked, a, value, n, at);
    let u = unlink_woken(ws, parked, a, value, d.woken, next, left - 1, free);
    waiters::link(ws, d.stays, at, u)
}

pub fn unlink_chain(
    ws: &mut [Waiter; 64],
    parked: &mut [u32; 32],
    a: u32,
    value: u32,
    head: u32,
    free: u32,
) -> Ends
    ensures value { links ws.new result
        ≡ unlink_marked ws.old a value parked.old 0 free (walk (waiter_nexts ws.old) 64 head) }
    ensures parked_after { parked.new ≡ marks_after ws.old a value parked.old 0 (walk (waiter_nexts ws.old) 64 head) }
{
    unlink_woken(ws, parked, a, value, 0, head, 64, free)
}

// Its wait is over, with the index 0.
pub fn woken_up(t: Thread) -> Thread
    ensures { result ≡ def.woken_up t }
{
    let c = thread::thread::without_wait(t);
    let d = thread::thread::with_result(c, Some(WaitResult::Signaled(0)), t.wait_syscall);
    thread::thread::with_status(d, ThreadStatus::Ready)
}
