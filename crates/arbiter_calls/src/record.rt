// A thread's record in the chain of an arbiter.
ghost use Rattle.std.specs.Prelude.{◌≡◌, true};
ghost use Rattle.block.specs.Block.{dec_block};
ghost use Rattle.sound.specs.Question.{sound?};
ghost use Rattle.sound.specs.Records.{chain_of};
ghost use Rattle.object.specs.Waiters.{last_of, pushed, push};
ghost use Rattle.svc.specs.Call.{with_objects};
ghost use Rattle.rows.specs.Holds.{Holds};
ghost use Rattle.arbiter_calls.specs.Record.{place_for};

use block::{Block, Head, record};
use object::waiters;
use rows::{read, write};
use types::object::Waiter;
use units::ObjectId;

// Behind which record that of a thread is stored, 0 for the first of a chain; none where it is not stored: only an
// arbiter stores records, and no second one of a thread for one address. Thread and address are no `Waiter` here, which
// has the next of a chain as well.
#[tactic(auto, using(crate::proofs::Records::places))]
pub fn place_for(block: &Block, o: ObjectId, t: u32, a: u32) -> Option<u32>
    ensures { result ≡ place_for (dec_block block.now).objects o.0 t a }
{
    let x = read::slot_at(block, o).object;
    if !waiters::is_arbiter(x) {
        return None;
    }
    let ws = record::read_all(block, 12416);
    waiters::chain_end(&ws, types::object::head_of(x), t, a)
}

// The first free record goes behind the last of the object's chain.
fn put_record(block: &mut Block, o: ObjectId, last: u32, t: u32, a: u32)
    requires block_value { sound? block.old ≡ true }
    requires last_value { last ≡ last_of (chain_of (dec_block block.old).objects o.0) }
    ensures { Holds block.new (with_objects (dec_block block.old) (pushed (dec_block block.old).objects o.0 t a)) }
{
    let head = block::get_head(block);
    let old = read::slot_at(block, o);
    let mut ws = record::read_all(block, 12416);
    let unused = waiters::waiter_at(&ws, head.free_waiter);
    waiters::hang(
        &mut ws,
        last,
        head.free_waiter,
        Waiter {
            thread: t,
            address: a,
            next: 0,
        },
    );
    let first = waiters::first_of(types::object::head_of(old.object), head.free_waiter);
    record::write_all(block, 12416, &ws);
    write::put_slot(block, o, waiters::headed(old, first));
    write::put_head(
        block,
        Head {
            free_waiter: unused.next,
            ..head
        },
    );
}

#[tactic(auto, using(crate::proofs::Records::places))]
pub fn put_pushed(block: &mut Block, o: ObjectId, t: u32, a: u32)
    requires block_value { sound? block.old ≡ true }
    ensures { Holds block.new (with_objects (dec_block block.old) (push (dec_block block.old).objects o.0 t a)) }
{
    if let Some(last) = place_for(block, o, t, a) {
        put_record(block, o, last, t, a);
    }
}
