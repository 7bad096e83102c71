// The earliest tick that a blocked thread or a timer wants the scheduler at (`next_event`).
ghost use Rattle.std.specs.Prelude.{◌≡◌, ◌≤◌, ◌<◌, length, get_or, None};
ghost use Rattle.laws.specs.All.{All};
ghost use Rattle.laws.specs.Tally.{tally_all};
ghost use Rattle.types.specs.Thread.{wait_list};
ghost use Rattle.block.specs.Block.{dec_block};
ghost use Rattle.sound.specs.View.{no_slot};
ghost use Rattle.kernel.specs.NextEvent.{next_wake, due_after, next_event};
ghost use Rattle.kernel.specs.Marks.{list_if, lists_if, due_marked};

use block::{Block, record};
use kernel::next_event;
use units::Ticks;

// The earliest wake tick of a blocked thread. One more in m for each object that a blocked thread waits on, in the same
// turn, so that each thread is read once.
fn look_at_threads(m: &mut [u32; 129], b: &Block) -> Option<Ticks>
    ensures result_value { result ≡ next_wake None (dec_block b.now).threads }
    ensures m_after { m.new ≡ tally_all 129 m.old (lists_if (dec_block b.now).threads) }
    ensures all { All (λ t. length (list_if t) ≤ wait_list) (dec_block b.now).threads }
{
    let mut best = None;
    for i in 0..32 {
        let t = record::thread_at(b, i);
        next_event::mark_list(m, t);
        best = next_event::wake_after(best, t);
    }
    best
}

// A slot that no blocked thread waits on is not read.
#[tactic(auto, using(laws::specs::Logic::pick_yes, laws::specs::Logic::pick_no, due::proofs::Looked::slot_is))]
fn due_at(waited: bool, best: Option<Ticks>, b: &Block, i: usize) -> Option<Ticks>
    requires i_bound { i < 128 }
    ensures { result ≡ due_after waited best (get_or (dec_block b.now).objects.slots i no_slot) }
{
    if !waited {
        return best;
    }
    next_event::earlier(best, next_event::due_of(record::slot_at(b, i).object))
}

// The timers that m marks.
fn next_due(first: Option<Ticks>, m: &[u32; 129], b: &Block) -> Option<Ticks>
    ensures { result ≡ due_marked m.now first 1 (dec_block b.now).objects.slots }
{
    let mut best = first;
    for i in 0..128 {
        best = due_at(0 < m[i + 1], best, b, i);
    }
    best
}

pub fn next_event(b: &Block) -> Option<Ticks>
    ensures { result ≡ next_event (dec_block b.now) }
{
    let mut m = [0u32; 129];
    let best = look_at_threads(&mut m, b);
    next_due(best, &m, b)
}
