// A signal at an address: threads parked there wake (the signalling kind of `arbitrate_address`).
ghost use Rattle.std.specs.Prelude.{◌≡◌, true};
ghost use Rattle.block.specs.Block.{dec_block};
ghost use Rattle.sound.specs.Question.{sound?};
ghost use Rattle.thread.specs.Threads.{with_threads};
ghost use Rattle.svc.specs.Arbiter as def;
ghost use Rattle.rows.specs.Holds.{Holds};
ghost use Rattle.arbiter.specs.Marks.{parked_marks, wake_marked};

use arbiter::wake;
use block::{Block, Head, record};
use object::waiters;
use rows::{read, write};
use units::ObjectId;

// Which threads are parked at the address.
fn parked_marks(block: &Block, a: u32) -> [u32; 32]
    ensures { result ≡ parked_marks (dec_block block.now).threads a }
{
    let mut r = [0u32; 32];
    for i in 0..32 {
        r[i] = wake::parked_mark(read::thread_at(block, i as u32), a);
    }
    r
}

// The threads that are marked as woken. One is read before it is written, and a write leaves those after it alone.
fn wake_threads(block: &mut Block, p: [u32; 32])
    requires block_value { sound? block.old ≡ true }
    ensures { Holds block.new (with_threads (dec_block block.old) (wake_marked p 0 (dec_block block.old).threads) (dec_block block.old).objects) }
{
    for i in 0..32 {
        if wake::is_woken(p[i]) {
            let t = read::thread_at(block, i as u32);
            write::put_thread(block, i as u32, wake::woken_up(t));
        }
    }
}

// At most as many as the value, in the order of their records; below 0 all. Without records nothing changes.
pub fn signal_address(block: &mut Block, o: ObjectId, a: u32, value: u32)
    requires block_value { sound? block.old ≡ true }
    ensures { Holds block.new (def.signal_address (dec_block block.old) o.0 a value) }
{
    let old = read::slot_at(block, o);
    let first = types::object::head_of(old.object);
    if first == 0 {
        return;
    }
    let head = block::get_head(block);
    let mut ws = record::read_all(block, 12416);
    let mut parked = parked_marks(block, a);
    let u = wake::unlink_chain(&mut ws, &mut parked, a, value, first, head.free_waiter);
    wake_threads(block, parked);
    record::write_all(block, 12416, &ws);
    write::put_slot(block, o, waiters::headed(old, u.head));
    write::put_head(
        block,
        Head {
            free_waiter: u.free,
            ..head
        },
    );
}
