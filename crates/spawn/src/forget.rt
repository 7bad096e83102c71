// What a place that is used again has of the thread before goes: its kept object and its records (`forget_thread` of
// mod.rs).
ghost use Rattle.std.specs.Prelude.{◌≡◌, true};
ghost use Rattle.laws.specs.Logic.{pick};
ghost use Rattle.block.specs.Block.{dec_block};
ghost use Rattle.sound.specs.Question.{sound?};
ghost use Rattle.object.specs.Waiters.{drop_thread};
ghost use Rattle.thread.specs.Threads.{with_threads, let_go, forget_thread};
ghost use Rattle.release.specs.Encoded.{Encoded};

use block::{Block, Head, record};
use object::waiters;
use rows::{read, write};
use units::ObjectId;

// The kept object.
#[tactic(auto, using(crate::proofs::Forgets::forgets))]
fn let_go(block: &mut Block, t: u32)
    requires encoded { Encoded block.old }
    ensures block_after { dec_block block.new ≡ with_threads (dec_block block.old) (dec_block block.old).threads (let_go (dec_block block.old).objects t) }
    ensures encoded_2 { Encoded block.new }
{
    let o = read::kept_at(block, t);
    if o.0 == 0 {
        return;
    }
    write::put_kept(block, t, ObjectId(0));
    release::release(block, o);
}

// The records of the thread, in every arbiter. They are taken out once, and each walk is lent them.
fn drop_records(block: &mut Block, t: u32)
    requires encoded { Encoded block.old }
    ensures block_after { dec_block block.new ≡ with_threads (dec_block block.old) (dec_block block.old).threads (drop_thread 128 1 t (dec_block block.old).objects) }
    ensures encoded_2 { Encoded block.new }
{
    let head = block::get_head(block);
    let mut ws = record::read_all(block, 12416);
    let mut free = head.free_waiter;
    for i in 0..128 {
        let old = record::slot_at(block, i);
        let first = types::object::head_of(old.object);
        if first != 0 {
            let u = waiters::unlink(&mut ws, Some(t), first, 64, free);
            write::put_slot(
                block,
                ObjectId((i + 1) as u32),
                waiters::headed(old, u.head),
            );
            free = u.free;
        }
    }
    record::write_all(block, 12416, &ws);
    write::put_head(
        block,
        Head {
            free_waiter: free,
            ..head
        },
    );
}

#[tactic(auto, using(crate::proofs::Forgets::forgets), unfolding(thread::specs::Threads::forget_thread))]
pub fn forget_if(block: &mut Block, reused: bool, t: u32)
    requires block_value { sound? block.old ≡ true }
    ensures block_after { dec_block block.new ≡ with_threads (dec_block block.old) (dec_block block.old).threads (pick reused (forget_thread (dec_block block.old).objects t) (dec_block block.old).objects) }
    ensures encoded { Encoded block.new }
{
    if !reused {
        return;
    }
    let_go(block, t);
    drop_records(block, t);
}
