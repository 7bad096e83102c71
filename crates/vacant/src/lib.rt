// The place and the TLS slot that a new thread gets, looked for in a block where it lies (`ended_thread`,
// `allocate_tls`).
#![tactic(auto, using(crate::proofs::Steps::steps))]

ghost use Rattle.std.specs.Prelude.{◌≡◌, ◌<◌, ◌≤◌};
ghost use Rattle.laws.specs.Logic.{◌and◌};
ghost use Rattle.types.specs.Thread.{is_dead};
ghost use Rattle.block.specs.Block.{dec_block};
ghost use Rattle.sound.specs.View.{thread_at};
ghost use Rattle.thread.specs.Threads.{unnamed, ended_thread, tls_slot};

use block::Block;
use question::tls;
use rows::read;
use thread::places;

// No handle or wait names the kept object of thread t.
fn unnamed(b: &Block, t: u32) -> bool
    requires t_bound { t < 32 }
    ensures { result ≡ unnamed (dec_block b.now).objects t }
{
    let o = read::kept_at(b, t);
    o.0 == 0 || read::slot_at(b, o).refcount <= 1
}

// Thread t ended, and nothing names it any more.
fn is_ended(b: &Block, t: u32) -> bool
    requires t_bound { t < 32 }
    ensures { result ≡ (is_dead (thread_at (dec_block b.now).threads t).status
        and unnamed (dec_block b.now).objects t) }
{
    types::thread::is_dead(read::thread_at(b, t).status) && unnamed(b, t)
}

// A thread that ended and that nothing names any more; else the number of threads, which is the new thread's place
// then, so that either way it is a number and no Option.
pub fn ended_thread(b: &Block) -> u32
    ensures { result ≡ ended_thread (dec_block b.now) }
{
    let n = codec::get32(b, 4).min(32);
    for i in 0..n {
        if is_ended(b, i) {
            return i;
        }
    }
    n
}

// The lowest slot that no live thread holds, of those given out; else the next.
pub fn tls_slot(b: &Block) -> u32
    ensures value { result ≡ tls_slot (dec_block b.now) }
    ensures upper_bound { result ≤ 32 }
{
    let mut m = [0u32; 129];
    tls::tally_tls(&mut m, b);
    places::free_slot(&m, codec::get32(b, 16).min(32))
}
