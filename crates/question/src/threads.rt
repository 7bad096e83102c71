// The thread table.
ghost use Rattle.std.specs.Prelude.{◌≡◌, eqb};
ghost use Rattle.laws.specs.Logic.{◌and◌};
ghost use Rattle.block.specs.Thread.{words_list};
ghost use Rattle.block.specs.Tables.{threads_in};
ghost use Rattle.sound.specs.View.{ids};
ghost use Rattle.sound.specs.Threads.{zeros?, places?, only?, thread?, blank?, place?, current?, threads?};
ghost use Rattle.question.specs.Linear.{one_place?, runs?, places32?};

use block::Block;
use block::thread::ThreadWords;
use codec::Four;
use types::thread::{Thread, ThreadStatus, WAIT_COUNT, WAIT_LIST};
use units::ObjectId;

fn one_place_ok(used: bool, o: ObjectId) -> bool
    ensures { result ≡ one_place? used o.0 }
{
    if used {
        tally::place::is_slot(o)
    } else {
        o.0 == 0
    }
}

// Zeros.
#[tactic(auto, using(crate::proofs::Tests::zeros))]
fn none_ok(l: [ObjectId; WAIT_LIST]) -> bool
    ensures { result ≡ places? 0 (ids l) }
{
    for o in &l {
        if o.0 != 0 {
            return false;
        }
    }
    true
}

// n object numbers, then zeros, of a list that is in use. Faults are counted, since a loop with no early end is
// compiled to several turns at once.
#[tactic(auto, using(crate::proofs::Tests::faults))]
fn some_ok(n: u32, l: [ObjectId; WAIT_LIST]) -> bool
    ensures { result ≡ places? n (ids l) }
{
    let mut bad: u32 = 0;
    for i in 0..WAIT_COUNT {
        bad += u32::from(!one_place_ok(i < n, l[i as usize]));
    }
    bad == 0 && n <= WAIT_COUNT
}

// n object numbers, then zeros. Most threads wait on nothing.
fn places_ok(n: u32, l: [ObjectId; WAIT_LIST]) -> bool
    ensures { result ≡ places? n (ids l) }
{
    if n == 0 { none_ok(l) } else { some_ok(n, l) }
}

fn only_ok(s: ThreadStatus, n: u32) -> bool
    ensures { result ≡ only? s n }
{
    n == 0 || matches!(&s, ThreadStatus::WaitSync)
}

fn run_ok(s: ThreadStatus, current: bool) -> bool
    ensures { result ≡ runs? s current }
{
    match s {
        ThreadStatus::Dead => !current,
        ThreadStatus::Running => current,
        _ => true,
    }
}

// A place in use.
fn thread_ok(c: Option<u32>, i: u32, t: Thread) -> bool
    ensures { result ≡ thread? c i t }
{
    t.priority <= 63
        && run_ok(t.status, sound::is_current(c, i))
        && places_ok(t.wait_count, t.wait_objects)
        && only_ok(t.status, t.wait_count)
}

fn four_zero(w: Four) -> bool
    ensures { result ≡ (eqb w.0 0 and (eqb w.1 0 and (eqb w.2 0 and eqb w.3 0))) }
{
    w.0 == 0 && w.1 == 0 && w.2 == 0 && w.3 == 0
}

#[tactic(auto, using(crate::proofs::Tests::zeros))]
fn words_zero(w: ThreadWords) -> bool
    ensures { result ≡ zeros? (words_list w) }
{
    four_zero(w.a)
        && four_zero(w.b)
        && four_zero(w.c)
        && four_zero(w.d)
        && w.wakeup_at == 0
        && w.running_since == 0
}

// A place not in use is all zero.
fn blank_ok(t: Thread) -> bool
    ensures { result ≡ blank? t }
{
    words_zero(block::thread::thread_words(t)) && none_ok(t.wait_objects)
}

fn place_ok(n: u32, c: Option<u32>, i: u32, t: Thread) -> bool
    ensures { result ≡ place? n c i t }
{
    if i < n {
        thread_ok(c, i, t)
    } else {
        blank_ok(t)
    }
}

fn current_ok(c: Option<u32>, n: u32) -> bool
    ensures { result ≡ current? c n }
{
    c.is_none_or(|t| t < n)
}

fn all_places_ok(n: u32, c: Option<u32>, b: &Block) -> bool
    ensures { result ≡ places32? n c (threads_in b.now) }
{
    for i in 0..32 {
        if !place_ok(n, c, i as u32, block::record::thread_at(b, i)) {
            return false;
        }
    }
    true
}

pub fn threads_ok(n: u32, c: Option<u32>, b: &Block) -> bool
    ensures { result ≡ threads? n c (threads_in b.now) }
{
    n <= 32 && current_ok(c, n) && all_places_ok(n, c, b)
}
