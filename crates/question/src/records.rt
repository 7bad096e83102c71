// Records of arbiters: their chains share out all 64, none has a pair twice, and free ones are blank.
ghost use Rattle.std.specs.Prelude.{◌≡◌, Bool, true, false, List, ℕ, Some, None};
ghost use Rattle.laws.specs.Logic.{◌and◌};
ghost use Rattle.laws.specs.Walk.{walk, ends?};
ghost use Rattle.laws.specs.Tally.{tally, tally_all};
ghost use Rattle.block.specs.Tables.{waiters_in};
ghost use Rattle.sound.specs.View.{waiter_nexts, waiter_threads, waiter_addresses};
ghost use Rattle.question.specs.LinearObjects.{walk_all, lone_all?, once_all?, chains_by?, fine_pool?, records_by?};

use crate::chains;
use crate::chains::Records;
use block::Block;

// Marks the records of all chains: None if one does not end or a record is met twice, else whether every thread is
// below n and no chain has one twice. Ends at the first None.
// m after None is left open, since the block is refused then. After false the threads are left open, since chains_ok
// is asked then.
#[tactic(auto, using(crate::proofs::Tests::tables))]
fn mark_chains(r: &Records, m: &mut [u32; 129], n: u32, heads: &[u32; 128]) -> Option<bool>
    ensures broken { result ≡ None → lone_all? r.now.nexts m.old heads.now ≡ false }
    ensures lone { (b : Bool) → result ≡ Some b → lone_all? r.now.nexts m.old heads.now ≡ true }
    ensures m_after { (b : Bool) → result ≡ Some b → m.new ≡ tally_all 129 m.old (walk_all r.now.nexts heads.now) }
    ensures pairs { result ≡ Some true → (ad : List ℕ)
        → chains_by? r.now.nexts r.now.threads ad n heads.now 128 ≡ true }
{
    let mut seen = [0u32; 32];
    let mut apart = true;
    for i in 0..128 {
        apart &= chains::mark_head(r, m, &mut seen, i as u32 + 1, n, heads[i])?;
    }
    Some(apart)
}

// Whether every chain names threads below n, and no thread and address twice.
#[tactic(auto, using(crate::proofs::Tests::turns))]
fn chains_ok(r: &Records, n: u32, heads: &[u32; 128]) -> bool
    ensures { result ≡ chains_by? r.now.nexts r.now.threads r.now.addresses n heads.now 128 }
{
    for head in heads {
        if !chains::chain_ok(r, n, *head, 64) {
            return false;
        }
    }
    true
}

#[tactic(auto, using(crate::proofs::Tests::turns))]
fn once_ok(m: &[u32; 129]) -> bool
    ensures { result ≡ once_all? m.now 64 }
{
    for i in 1..65 {
        if m[i] != 1 {
            return false;
        }
    }
    true
}

// Whether the free chain ends, and has each record once that m has not, and no other.
fn rest_free(nexts: &[u32; 64], m: &mut [u32; 129], free: u32) -> bool
    ensures { result ≡ (ends? nexts.now 64 free and once_all? (tally 129 m.old (walk nexts.now 64 free)) 64) }
{
    chains::mark_chain(nexts, 64, m, free, 64) && once_ok(m)
}

// Whether the chains and the free one end and have each record once, and each chain names threads below n and no pair
// twice. Records of different threads differ, so pairs are compared only if a chain has a thread twice or one from n
// on, and only once the chains are known to be disjoint: 2,016 pairs at most.
fn shared_out(r: &Records, n: u32, heads: &[u32; 128], free: u32) -> bool
    ensures { result ≡ fine_pool? r.now.nexts r.now.threads r.now.addresses n heads.now free }
{
    let mut m = [0u32; 129];
    let Some(apart) = mark_chains(r, &mut m, n, heads) else {
        return false;
    };
    rest_free(&r.nexts, &mut m, free) && (apart || chains_ok(r, n, heads))
}

// The columns of the records.
fn read_records(b: &Block, r: &mut Records)
    ensures nexts_after { r.new.nexts ≡ waiter_nexts (waiters_in b.now) }
    ensures threads_after { r.new.threads ≡ waiter_threads (waiters_in b.now) }
    ensures addresses_after { r.new.addresses ≡ waiter_addresses (waiters_in b.now) }
{
    for i in 0..64 {
        let w = block::record::waiter_at(b, i);
        r.nexts[i] = w.next;
        r.threads[i] = w.thread;
        r.addresses[i] = w.address;
    }
}

// Whether the chains from heads and the free one share out the records, an arbiter's name threads below n and no pair
// twice, and free ones are blank.
pub fn records_ok(n: u32, heads: &[u32; 128], b: &Block, free: u32) -> bool
    ensures { result ≡ records_by? n heads.now (waiters_in b.now) free }
{
    let mut r = Records {
        nexts: [0; 64],
        threads: [0; 64],
        addresses: [0; 64],
    };
    read_records(b, &mut r);
    shared_out(&r, n, heads, free) && chains::blanks_ok(&r, free, 64)
}
