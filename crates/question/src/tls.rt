// TLS slots.
ghost use Rattle.std.specs.Prelude.{◌≡◌};
ghost use Rattle.laws.specs.Tally.{tally};
ghost use Rattle.block.specs.Tables.{threads_in};
ghost use Rattle.sound.specs.Tls.{held, below?, tls?};
ghost use Rattle.tally.specs.Lists.{slot_of};
ghost use Rattle.question.specs.Linear.{once32?};

use block::Block;
use types::thread::Thread;

#[tactic(auto, using(crate::proofs::Tests::marks))]
fn slot_below(next: u32, t: Thread) -> bool
    ensures { result ≡ below? next (slot_of t) }
{
    types::thread::is_dead(t.status) || t.tls < next
}

// The slots of live threads are below next.
#[tactic(auto, using(crate::proofs::Tests::tables))]
fn below_ok(next: u32, b: &Block) -> bool
    ensures { result ≡ below? next (held (threads_in b.now)) }
{
    for i in 0..32 {
        if !slot_below(next, block::record::thread_at(b, i)) {
            return false;
        }
    }
    true
}

// One more for the TLS slot of each live thread.
#[tactic(auto, using(crate::proofs::Tests::tables))]
pub fn tally_tls(m: &mut [u32; 129], b: &Block)
    ensures { m.new ≡ tally 129 m.old (held (threads_in b.now)) }
{
    for i in 0..32 {
        tally::tally_slot(m, block::record::thread_at(b, i));
    }
}

// No count of the first 32 is above 1.
fn once_ok(m: &[u32; 129]) -> bool
    ensures { result ≡ once32? m.now }
{
    for i in 0..32 {
        if 1 < m[i] {
            return false;
        }
    }
    true
}

pub fn tls_ok(b: &Block, next: u32) -> bool
    ensures { result ≡ tls? (threads_in b.now) next }
{
    if 32 < next || !below_ok(next, b) {
        return false;
    }
    let mut m = [0u32; 129];
    tally_tls(&mut m, b);
    once_ok(&m)
}
