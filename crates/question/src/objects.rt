// Objects: counts, the free chain, kept objects, and what objects name.
ghost use Rattle.std.specs.Prelude.{◌≡◌, leb, replicate};
ghost use Rattle.laws.specs.Logic.{◌and◌};
ghost use Rattle.laws.specs.Walk.{walk, ends?};
ghost use Rattle.laws.specs.Tally.{tally};
ghost use Rattle.block.specs.Tables.{threads_in, slots_in, kept_in};
ghost use Rattle.sound.specs.View.{kinds, refs, nexts, heads, ids};
ghost use Rattle.sound.specs.Objects.{up_to128};
ghost use Rattle.question.specs.Linear.{slot?, slots?};
ghost use Rattle.question.specs.LinearObjects.{named_of, named, kept_thread?, kept_process?, kept_threads?, kept_by?};
ghost use Rattle.question.specs.LinearObjects.{objects_by?, dead_mark, dead_marks, live?, owner_by?, content_by?};
ghost use Rattle.question.specs.LinearObjects.{contents_by?};

use crate::chains;
use block::Block;
use tally::place::slot_index;
use types::object::{KObject, head_of, kind_number, next_of};
use types::thread::{ThreadStatus, is_dead};
use units::ObjectId;

// The columns of the slots.
#[derive(Drop)]
pub struct Columns {
    pub kinds: [u32; 128],
    pub refs: [u32; 128],
    // The next of the free chain.
    pub nexts: [u32; 128],
    // The first record of an arbiter.
    pub heads: [u32; 128],
    // The thread of a thread object.
    pub named: [u32; 128],
}

// The thread that a thread object names, 0 for another kind: a column of numbers, which is read for thread objects only.
fn named_of(o: KObject) -> u32
    ensures { result ≡ named_of o }
{
    match o {
        KObject::Thread(t) => t,
        _ => 0,
    }
}

// A slot of this kind number and count, named n times and f times on the free chain.
fn slot_ok(kind: u32, refs: u32, n: u32, f: u32) -> bool
    ensures { result ≡ slot? kind refs n f }
{
    let dead = kind == 0;
    refs == n && (refs == 0) == dead && f == u32::from(dead)
}

// Faults are counted, since a loop with no early end is compiled to several turns at once.
#[tactic(auto, using(crate::proofs::Tests::faults))]
fn slots_ok(s: &Columns, c: &[u32; 129], m: &[u32; 129]) -> bool
    ensures { result ≡ slots? s.now.kinds s.now.refs c.now m.now 128 }
{
    let mut bad: u32 = 0;
    for i in 0..128 {
        bad += u32::from(!slot_ok(s.kinds[i], s.refs[i], c[i + 1], m[i + 1]));
    }
    bad == 0
}

#[tactic(auto, using(crate::proofs::Tests::tables))]
fn kept_numbers_ok(b: &Block) -> bool
    ensures { result ≡ up_to128 (ids (kept_in b.now)) }
{
    for i in 0..32 {
        if 128 < block::record::kept_at(b, i).0 {
            return false;
        }
    }
    true
}

fn kept_in(b: &Block, process: ObjectId) -> bool
    ensures { result ≡ (up_to128 (ids (kept_in b.now)) and leb process.0 128) }
{
    kept_numbers_ok(b) && process.0 <= 128
}

// Whether each count is the number of names c, and the free chain has exactly the dead slots.
fn held_ok(s: &Columns, free: u32, c: &[u32; 129]) -> bool
    ensures { result ≡ (ends? s.now.nexts 128 free
        and slots? s.now.kinds s.now.refs c.now (tally 129 (replicate 129 0) (walk s.now.nexts 128 free)) 128) }
{
    let mut m = [0u32; 129];
    chains::mark_chain(&s.nexts, 128, &mut m, free, 128) && slots_ok(s, c, &m)
}

// The object kept for thread t, and the kind and the thread of what stands at its index.
fn kept_thread(o: ObjectId, kind: u32, named: u32, t: u32) -> bool
    ensures { result ≡ kept_thread? o.0 kind named t }
{
    o.0 == 0 || o.0 <= 128 && kind == 1 && named == t
}

fn kept_process(o: ObjectId, kind: u32) -> bool
    ensures { result ≡ kept_process? o.0 kind }
{
    o.0 == 0 || o.0 <= 128 && kind == 7
}

#[tactic(auto, using(crate::proofs::Tests::turns))]
fn kept_threads_ok(s: &Columns, b: &Block) -> bool
    ensures { result ≡ kept_threads? s.now.kinds s.now.named (ids (kept_in b.now)) 32 }
{
    for t in 0..32 {
        let k = block::record::kept_at(b, t);
        let i = slot_index(k);
        if !kept_thread(k, s.kinds[i], s.named[i], t as u32) {
            return false;
        }
    }
    true
}

// Whether each kept object is a thread object that names its own thread, or the process object.
fn kept_ok(s: &Columns, b: &Block, process: ObjectId) -> bool
    ensures { result ≡ kept_by? s.now.kinds s.now.named (ids (kept_in b.now)) process.0 }
{
    kept_threads_ok(s, b) && kept_process(process, s.kinds[slot_index(process)])
}

// 1 for a thread that is Dead.
fn dead_mark(s: ThreadStatus) -> u32
    ensures { result ≡ dead_mark s }
{
    u32::from(is_dead(s))
}

// 1 for each thread that is Dead.
pub fn dead_marks(b: &Block) -> [u32; 32]
    ensures { result ≡ dead_marks (threads_in b.now) }
{
    let mut r = [0u32; 32];
    for i in 0..32 {
        r[i] = dead_mark(block::record::thread_at(b, i).status);
    }
    r
}

// Whether the mark of thread t is 0; a number past the marks is no live thread.
#[tactic(auto, using(crate::proofs::Tests::marks))]
fn live(d: &[u32], t: u32) -> bool
    ensures { result ≡ live? d.now t }
{
    d.get(t as usize).is_some_and(|mark| *mark == 0)
}

fn owner_ok(d: &[u32], w: Option<u32>) -> bool
    ensures { result ≡ owner_by? d.now w }
{
    w.is_none_or(|t| live(d, t))
}

fn content_ok(n: u32, d: &[u32], o: KObject) -> bool
    ensures { result ≡ content_by? n d.now o }
{
    match o {
        KObject::Thread(t) => t < n,
        KObject::Mutex(m) => owner_ok(d, m.owner),
        _ => true,
    }
}

// The columns of the slots in one pass. Whether the threads that objects name exist, and owners are not Dead, by the
// marks d.
pub fn read_columns(b: &Block, n: u32, d: &[u32], s: &mut Columns) -> bool
    ensures value { result ≡ contents_by? n d.now (slots_in b.now) 128 }
    ensures kinds_after { s.new.kinds ≡ kinds (slots_in b.now) }
    ensures refs_after { s.new.refs ≡ refs (slots_in b.now) }
    ensures nexts_after { s.new.nexts ≡ nexts (slots_in b.now) }
    ensures heads_after { s.new.heads ≡ heads (slots_in b.now) }
    ensures named_after { s.new.named ≡ named (slots_in b.now) }
{
    let mut ok = true;
    for i in 0..128 {
        let slot = block::record::slot_at(b, i);
        s.kinds[i] = kind_number(slot.object);
        s.refs[i] = slot.refcount;
        s.nexts[i] = next_of(slot.object);
        s.heads[i] = head_of(slot.object);
        s.named[i] = named_of(slot.object);
        ok &= content_ok(n, d, slot.object);
    }
    ok
}

// Whether kept objects are slots, each count is the number of names c, the free chain has exactly the dead slots, and
// each kept object is what it is kept for; from the columns of the slots.
pub fn objects_ok(s: &Columns, free: u32, c: &[u32; 129], b: &Block, process: ObjectId) -> bool
    ensures { result ≡ objects_by? s.now.kinds s.now.refs s.now.nexts s.now.named free c.now (ids (kept_in b.now))
        process.0 }
{
    kept_in(b, process) && held_ok(s, free, c) && kept_ok(s, b, process)
}
