// The first pick and the stand-in (`others_ready`, `pick_next`, `pick_other`).
#![tactic(auto)]

ghost use Rattle.std.specs.Prelude.{◌≡◌, not, ◌<◌, ◌≤◌, eqb, length, Some, IfSome};
ghost use Rattle.laws.specs.Logic.{◌and◌};
ghost use Rattle.sound.specs.Threads.{is_current};
ghost use Rattle.thread.specs.Threads.{least};
ghost use Rattle.pass.specs.Pick as def;

use types::thread::{Thread, ThreadStatus};

pub fn is_runnable(s: ThreadStatus) -> bool
    ensures { result ≡ def.is_runnable s }
{
    matches!(&s, ThreadStatus::Running | ThreadStatus::Ready)
}

pub fn is_running(s: ThreadStatus) -> bool
    ensures { result ≡ def.is_running s }
{
    matches!(&s, ThreadStatus::Running)
}

#[tactic(auto, using(laws::specs::Logic::and_yes, laws::specs::Logic::and_no))]
fn other_ready(c: Option<u32>, i: u32, t: Thread) -> bool
    ensures { result ≡ (not (is_current c i) and def.is_runnable t.status) }
{
    !sound::is_current(c, i) && is_runnable(t.status)
}

// Whether a thread besides the current one could run.
#[tactic(auto, using(crate::proofs::Steps::others_hit, crate::proofs::Steps::others_miss, crate::proofs::Steps::others_end))]
pub fn others_ready(c: Option<u32>, ts: &[Thread; 32]) -> bool
    ensures { result ≡ def.others_from c 0 ts.now }
{
    for i in 0..32 {
        if other_ready(c, i as u32, ts[i]) {
            return true;
        }
    }
    false
}

fn better_priority(best: u32, t: Thread) -> u32
    ensures { result ≡ def.better best t }
{
    if is_runnable(t.status) {
        t.priority.min(best)
    } else {
        best
    }
}

// The least priority number of the runnable threads, 64 if there is none. No option: as a number, which `best` of the
// specs is too, it is one minimum.
#[tactic(auto, using(crate::proofs::Steps::best_more, crate::proofs::Steps::best_end))]
fn best_in_row(row: &[Thread]) -> u32
    ensures { result ≡ def.best row.now }
{
    let mut best = 64;
    for t in row {
        best = better_priority(best, *t);
    }
    best
}

#[tactic(auto, using(laws::specs::Logic::and_yes, laws::specs::Logic::and_no))]
fn runs_at(t: Thread, p: u32) -> bool
    ensures { result ≡ (def.is_runnable t.status and eqb t.priority p) }
{
    is_runnable(t.status) && t.priority == p
}

// The first thread of a row, cyclically from start on, that is runnable with the priority p.
#[tactic(auto, using(crate::proofs::Turns::finds))]
fn cyclic_in_row(row: &[Thread], p: u32, start: usize) -> Option<u32>
    requires { (start ≤ length row.now) × (length row.now ≤ 32) }
    ensures { result ≡ def.cyclic row.now p start }
{
    for k in 0..row.len() {
        let at = (start + k) % row.len();
        if runs_at(row[at], p) {
            return Some(at as u32);
        }
    }
    None
}

// The place after the current one, at most 32: from there on the find goes on at the first place.
fn start_after(c: Option<u32>) -> usize
    ensures value { result ≡ least (def.start_after c) 32 }
    ensures upper_bound { result ≤ 32 }
{
    match c {
        None => 0,
        Some(t) => (t as usize + 1).min(32),
    }
}

#[tactic(auto, using(crate::proofs::Steps::keeps_far, laws::specs::Logic::and_yes, laws::specs::Logic::and_no))]
fn keeps_at(ts: &[Thread; 32], t: u32, p: u32) -> bool
    ensures { result ≡ def.keeps_core ts.now (Some t) p }
{
    if 32 <= t {
        return false;
    }
    let v = ts[t as usize];
    is_running(v.status) && v.priority <= p
}

fn keeps_core(ts: &[Thread; 32], c: Option<u32>, p: u32) -> bool
    ensures { result ≡ def.keeps_core ts.now c p }
{
    c.is_some_and(|t| keeps_at(ts, t, p))
}

// The current thread if it is Running and none is more urgent, else the first of the most urgent ones after it.
#[tactic(auto, using(crate::proofs::Turns::finds), unfolding(pass::specs::Pick::pick_next))]
pub fn pick_next(ts: &[Thread; 32], c: Option<u32>) -> Option<u32>
    ensures { result ≡ def.pick_next ts.now c }
{
    let p = best_in_row(ts);
    if 64 <= p {
        return None;
    }
    if keeps_core(ts, c, p) {
        return c;
    }
    cyclic_in_row(ts, p, start_after(c))
}

#[tactic(auto, using(laws::specs::Logic::and_yes, laws::specs::Logic::and_no))]
fn stands(ts: &[Thread; 32], chosen: u32, p: u32, i: u32) -> bool
    requires { i < 32 }
    ensures { result ≡ def.stands ts.now chosen p i }
{
    let y = ts[i as usize];
    i != chosen && is_runnable(y.status) && p <= y.priority
}

// The earlier keeps its place among equals.
fn more_urgent(ts: &[Thread; 32], best: Option<u32>, i: u32) -> Option<u32>
    requires best_bound { IfSome best (λ b. b < 32) }
    requires i_bound { i < 32 }
    ensures value { result ≡ def.more_urgent ts.now best i }
    ensures upper_bound { IfSome result (λ b. b < 32) }
{
    match best {
        Some(b) if ts[b as usize].priority <= ts[i as usize].priority => best,
        _ => Some(i),
    }
}

// The most urgent runnable thread besides the chosen one, at the priority p or below.
#[tactic(auto, using(crate::proofs::Steps::other_stands, crate::proofs::Steps::other_passed, crate::proofs::Steps::other_end), unfolding(pass::specs::Pick::pick_other))]
pub fn pick_other(ts: &[Thread; 32], chosen: u32, p: u32) -> Option<u32>
    ensures { result ≡ def.pick_other ts.now chosen p }
{
    let mut best: Option<u32> = None;
    for i in 0..32 {
        if stands(ts, chosen, p, i) {
            best = more_urgent(ts, best, i);
        }
    }
    best
}
