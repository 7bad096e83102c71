// The records of address arbiters, numbered from 1: a chain each, and the free one.
// Chains are walked by recursion with a falling allowance, so that a damaged chain ends too. The table is lent to each
// step of a walk, so that none copies it.
ghost use Rattle.std.specs.Prelude.{◌≡◌, ◌∷◌, ◌+◌, ◌-◌, ◌<◌, ◌≤◌, eqb, None, Some};
ghost use Rattle.laws.specs.Logic.{pick};
ghost use Rattle.laws.specs.Count as cells;
ghost use Rattle.laws.specs.Walk.{walk};
ghost use Rattle.sound.specs.View.{waiter_nexts, waiter_threads, waiter_addresses};
ghost use Rattle.sound.specs.Records as chains;
ghost use Rattle.object.specs.Slots.{with_object};
ghost use Rattle.object.specs.Waiters as def;
ghost use Rattle.object.specs.Ends.{links, kept, unlink_from};

use types::object::{KObject, Slot, Waiter};
use types::sync::AddressArbiter;

// The records, the first free one, and the first that a chain keeps: what the definitions of specs/ give. Code is lent
// the records, and gives the ends.
#[derive(Clone, Copy)]
pub struct Links {
    pub waiters: [Waiter; 64],
    pub free: u32,
    pub head: u32,
}

// The first free record, and the first that a chain keeps.
#[derive(Clone, Copy)]
pub struct Ends {
    pub free: u32,
    pub head: u32,
}

// The record numbered x, blank where there is none.
pub fn waiter_at(ws: &[Waiter; 64], x: u32) -> Waiter
    ensures { result ≡ def.waiter_at ws.now x }
{
    if x == 0 || 64 < x {
        return Waiter::default();
    }
    ws[(x - 1) as usize]
}

fn put_waiter(ws: &mut [Waiter; 64], x: u32, w: Waiter)
    ensures { ws.new ≡ def.waiter_put ws.old x w }
{
    if x == 0 || 64 < x {
        return;
    }
    ws[(x - 1) as usize] = w;
}

// v goes into the cell numbered x, from 1; nothing changes where there is no such cell.
#[tactic(auto, using(crate::proofs::Laws::cells))]
pub fn put_cell(l: &mut [u32; 64], x: u32, v: u32)
    ensures { l.new ≡ cells.put l.old x v }
{
    if 0 < x && x <= 64 {
        l[(x - 1) as usize] = v;
    }
}

// The record x goes in front of what is kept, or of the free chain.
pub fn link(ws: &mut [Waiter; 64], keep: bool, x: u32, u: Ends) -> Ends
    ensures { links ws.new result ≡ def.link keep x (links ws.old u) }
{
    if keep {
        let old = waiter_at(ws, x);
        put_waiter(
            ws,
            x,
            Waiter {
                next: u.head,
                ..old
            },
        );
        return Ends { head: x, ..u };
    }
    put_waiter(
        ws,
        x,
        Waiter {
            next: u.free,
            ..Waiter::default()
        },
    );
    Ends { free: x, ..u }
}

// Whether a record stays when those of a thread go, or all.
fn keeps(thread: Option<u32>, w: Waiter) -> bool
    ensures { result ≡ kept thread w.thread }
{
    thread.is_some_and(|t| w.thread != t)
}

// The chain from at without the records of a thread, or without all of them if none is named; what goes is free again.
pub fn unlink(ws: &mut [Waiter; 64], thread: Option<u32>, at: u32, left: u32, free: u32) -> Ends
    ensures { links ws.new result ≡ unlink_from thread ws.old at left free }
{
    if at == 0 || left == 0 {
        return Ends { free, head: 0 };
    }
    let w = waiter_at(ws, at);
    let u = unlink(ws, thread, w.next, left - 1, free);
    link(ws, keeps(thread, w), at, u)
}

// Only an arbiter has a chain.
pub fn with_head(o: KObject, first: u32) -> KObject
    ensures { result ≡ def.with_head o first }
{
    match o {
        KObject::AddressArbiter(_) => KObject::AddressArbiter(AddressArbiter { waiters: first }),
        other => other,
    }
}

pub fn is_arbiter(o: KObject) -> bool
    ensures { result ≡ def.is_arbiter o }
{
    matches!(&o, KObject::AddressArbiter(_))
}

pub fn headed(s: Slot, first: u32) -> Slot
    ensures { result ≡ with_object s (def.with_head s.object first) }
{
    Slot {
        object: with_head(s.object, first),
        ..s
    }
}

// Whether a record of the chain from at is that of thread t and address a.
fn has_record(ws: &[Waiter; 64], t: u32, a: u32, at: u32, left: u32) -> bool
    ensures { result ≡ chains.has? (waiter_threads ws.now) (waiter_addresses ws.now) t a
        (walk (waiter_nexts ws.now) left at) }
{
    if at == 0 || left == 0 {
        return false;
    }
    let w = waiter_at(ws, at);
    if w.thread == t && w.address == a {
        return true;
    }
    has_record(ws, t, a, w.next, left - 1)
}

// The last record of the chain from at, or the prior one if the chain has none.
fn last_of(ws: &[Waiter; 64], prior: u32, at: u32, left: u32) -> u32
    ensures { result ≡ def.last_of (prior ∷ walk (waiter_nexts ws.now) left at) }
{
    if at == 0 || left == 0 {
        return prior;
    }
    last_of(ws, at, waiter_at(ws, at).next, left - 1)
}

pub fn first_of(head: u32, r: u32) -> u32
    ensures { result ≡ pick (eqb head 0) r head }
{
    if head == 0 { r } else { head }
}

// The record r hung on that before it.
pub fn hang(ws: &mut [Waiter; 64], last: u32, r: u32, w: Waiter)
    ensures { ws.new ≡ def.waiter_put (def.waiter_put ws.old last (def.with_next (def.waiter_at ws.old last) r)) r w }
{
    let old = waiter_at(ws, last);
    put_waiter(ws, last, Waiter { next: r, ..old });
    put_waiter(ws, r, w);
}

// The last record of the chain from head, 0 if it has none; none if the chain has a record of thread t and address a.
pub fn chain_end(ws: &[Waiter; 64], head: u32, t: u32, a: u32) -> Option<u32>
    ensures { result ≡ pick
        (chains.has? (waiter_threads ws.now) (waiter_addresses ws.now) t a (walk (waiter_nexts ws.now) 64 head)) None
        (Some (def.last_of (walk (waiter_nexts ws.now) 64 head))) }
{
    if has_record(ws, t, a, head, 64) {
        return None;
    }
    Some(last_of(ws, 0, head, 64))
}
