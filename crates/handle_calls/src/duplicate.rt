// `duplicate_handle`: another handle for the same object.
ghost use Rattle.std.specs.Prelude.{◌≡◌, true, leb};
ghost use Rattle.block.specs.Block.{dec_block};
ghost use Rattle.sound.specs.Question.{sound?};
ghost use Rattle.object.specs.Store.{add_ref};
ghost use Rattle.object.specs.Handles.{give};
ghost use Rattle.svc.specs.Call.{with_handles};
ghost use Rattle.svc.specs.Handles as def;
ghost use Rattle.rows.specs.Holds.{Holds};
ghost use Rattle.outcome.specs.Outcome.{outcome, left};
ghost use Rattle.outcome.specs.Findings.{found_of};
ghost use Rattle.types.specs.Refusal.{refusal_number};

use block::Block;
use objects::open;
use outcome::{Answer, Outcome};
use rows::{read, write};
use svc::Registers;
use types::refusal::Refusal;
use units::{Handle, ObjectId};

// The handle goes behind the last one, and the object has one holder more.
fn put_duplicate(block: &mut Block, o: ObjectId)
    requires { sound? block.old ≡ true }
    ensures { Holds block.new (with_handles (dec_block block.old) (give (dec_block block.old).handles o.0)
        (add_ref (dec_block block.old).objects o.0)) }
{
    let head = block::get_head(block);
    let old = read::slot_at(block, o);
    write::put_slot(block, o, object::store::held(old));
    let given = write::give(block, head, o);
    write::put_head(block, given);
}

// With no room for another handle, which the refusal says, the call is refused or its handle is unknown. The block
// stays as it is.
fn without_room(block: &Block, r: Registers, refusal: Refusal) -> Result<Outcome, Refusal>
    requires block_value { sound? block.now ≡ true }
    requires refusal_value { refusal_number refusal ≡ found_of (leb 256 (dec_block block.now).handles.count)
        (leb 0xFFFF8000 (dec_block block.now).handles.next.0) }
    ensures value { result ≡ outcome (def.duplicate_handle (dec_block block.now) r) }
    ensures block_value_2 { block.now ≡ left (def.duplicate_handle (dec_block block.now) r) block.now }
{
    if open::no_room(block, Handle(r.r1)) {
        return Err(Refusal::Full);
    }
    if open::names(block, Handle(r.r1)) {
        return Err(refusal);
    }
    outcome::room(false, outcome::out_of_handles(block))?;
    Ok(Outcome::from(Answer::UnknownHandle))
}

// r1 handle; r1 gets another.
pub fn duplicate_handle(block: &mut Block, r: Registers) -> Result<Outcome, Refusal>
    requires block_value { sound? block.old ≡ true }
    ensures value { result ≡ outcome (def.duplicate_handle (dec_block block.old) r) }
    ensures block_after { block.new ≡ left (def.duplicate_handle (dec_block block.old) r) block.old }
{
    let count = codec::get32(block, 40);
    let next = codec::get32(block, 44);
    if let Err(refusal) = outcome::room(256 <= count, 0xFFFF8000 <= next) {
        return without_room(block, r, refusal);
    }
    let o = open::resolve(block, Handle(r.r1))?;
    if o.0 == 0 {
        return Ok(Outcome::from(Answer::UnknownHandle));
    }
    put_duplicate(block, o);
    Ok(outcome::gives(next))
}
