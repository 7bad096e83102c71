// The end of a thread in the block: its record and the head are written where they lie.
#![tactic(auto)]

ghost use Rattle.std.specs.Prelude.{◌≡◌, true, ◌<◌, eqb};
ghost use Rattle.laws.specs.Logic.{pick};
ghost use Rattle.types.specs.Refusal.{found_in, unless_found};
ghost use Rattle.types.specs.Thread.{option_flag, option_value};
ghost use Rattle.block.specs.Block.{enc_block, dec_block};
ghost use Rattle.sound.specs.Question.{sound?};
ghost use Rattle.thread.specs.Threads as def;
ghost use Rattle.lent.specs.Operations.{finding};
ghost use Rattle.rows.specs.Holds.{Holds};
ghost use Rattle.release.specs.Encoded.{Encoded};

use block::{Block, Head, record};
use rows::{read, write};
use thread::end;
use types::list;
use types::refusal::Refusal;
use units::ObjectId;

// Every mutex that the thread owns is given back, all the way down. A slot is read before it is written, and a write
// leaves the slots after it alone.
fn disown(block: &mut Block, t: u32)
    requires encoded { Encoded block.old }
    ensures { Holds block.new (def.with_threads (dec_block block.old) (dec_block block.old).threads (def.disown (dec_block block.old).objects t)) }
{
    for i in 0..128 {
        let old = record::slot_at(block, i);
        if end::is_mutex(old) {
            write::put_slot(block, ObjectId((i + 1) as u32), end::disowned_slot(t, old));
        }
    }
}

// The head with another current thread.
#[tactic(auto, using(crate::proofs::Ended::ends))]
fn new_head(h: Head, current: Option<u32>) -> Head
    ensures { result ≡ (record h { current_flag = option_flag current; current_value = option_value current }) }
{
    Head {
        current_flag: types::thread::option_flag(current),
        current_value: types::thread::option_value(current),
        ..h
    }
}

// The objects of the thread's wait are let go before its record is written, which has their list.
#[tactic(auto, using(crate::proofs::Ended::ends))]
pub fn put_ended(block: &mut Block, t: u32)
    requires block_value { sound? block.old ≡ true }
    requires t_bound { t < 32 }
    ensures { Holds block.new (def.end_thread (dec_block block.old) t) }
{
    let x = read::thread_at(block, t);
    let current = end::left_by(read::current(block), t);
    release::release_list(block, list::first(&x.wait_objects, x.wait_count));
    let head = block::get_head(block);
    disown(block, t);
    write::put_thread(block, t, end::ended(x));
    write::put_head(block, new_head(head, current));
}

// If it is refused the block stays as it is.
#[tactic(auto, using(crate::proofs::Ended::ended_found))]
pub fn end_thread(block: &mut Block, t: u32) -> Result<(), Refusal>
    requires block_value { sound? block.old ≡ true }
    requires t_bound { t < 32 }
    ensures value { result ≡ unless_found (finding (def.end_thread (dec_block block.old) t)) tt }
    ensures block_after { block.new
        ≡ pick (eqb (found_in result) 0) (enc_block (def.end_thread (dec_block block.old) t)) block.old }
{
    outcome::room(false, outcome::out_of_handles(block))?;
    put_ended(block, t);
    Ok(())
}
