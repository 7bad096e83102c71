// What a wait that is satisfied takes of its objects, in the block where it lies (`acquire` of mod.rs).
#![tactic(auto)]

ghost use Rattle.std.specs.Prelude.{◌≡◌, true, get_or, Ok, Err};
ghost use Rattle.laws.specs.Logic.{pick};
ghost use Rattle.types.specs.Refusal.{unless_found};
ghost use Rattle.block.specs.Block.{dec_block};
ghost use Rattle.sound.specs.View.{ids};
ghost use Rattle.sound.specs.View as view;
ghost use Rattle.sound.specs.Objects.{Live};
ghost use Rattle.sound.specs.Question.{sound?};
ghost use Rattle.thread.specs.Threads.{with_threads};
ghost use Rattle.pass.specs.Signal as def;

use block::Block;
use rows::{read, write};
use types::refusal::Refusal;
use units::ObjectId;

// The object at a place of a list, none past its end.
pub fn object_at(list: &[ObjectId], i: u32) -> ObjectId
    ensures { result.0 ≡ get_or (ids list.now) i 0 }
{
    list.get(i as usize).copied().unwrap_or(ObjectId(0))
}

// Thread w takes the signal of the object. Refused, with the block as it is, if a count does not fit any more. No byte
// is left open: a sound block is the encoding of what it decodes to.
#[tactic(auto, using(crate::proofs::Taken::takes))]
pub fn take(block: &mut Block, o: ObjectId, w: u32) -> Result<(), Refusal>
    requires block_value { sound? block.old ≡ true }
    requires live { Live (dec_block block.old).threads w }
    ensures value { result ≡ unless_found
        (pick (def.acquire_over (view.object_at (dec_block block.old).objects o.0)) 8 0) tt }
    ensures block_unchanged { (result ≡ Err Refusal.Overflow) → block.new ≡ block.old }
    ensures block_after { (result ≡ Ok tt)
        → dec_block block.new ≡ with_threads (dec_block block.old) (dec_block block.old).threads
        (def.acquire (dec_block block.old).objects o.0 w) }
    ensures block_after_2 { sound? block.new ≡ true }
{
    let x = read::slot_at(block, o);
    if acquire::over_after(false, x) {
        return Err(Refusal::Overflow);
    }
    write::put_slot(block, o, acquire::acquired_slot(x, w));
    Ok(())
}

// One object after the other. Refused if a count does not fit any more; those before it are taken then. The block is
// left open then, but for being sound: the callers refuse and put back a copy.
#[tactic(auto, using(crate::proofs::Taken::lists))]
pub fn take_list(block: &mut Block, list: &[ObjectId], w: u32) -> Result<(), Refusal>
    requires block_value { sound? block.old ≡ true }
    requires live { Live (dec_block block.old).threads w }
    ensures value { result ≡ unless_found
        (pick (def.acquires (dec_block block.old).objects (ids list.now) w).overflow 8 0) tt }
    ensures block_after { (result ≡ Ok tt)
        → dec_block block.new ≡ with_threads (dec_block block.old) (dec_block block.old).threads
        (def.acquires (dec_block block.old).objects (ids list.now) w) }
    ensures block_after_2 { sound? block.new ≡ true }
{
    for o in list {
        take(block, *o, w)?;
    }
    Ok(())
}
