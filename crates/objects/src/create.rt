// A new object with a handle.
ghost use Rattle.std.specs.Prelude.{◌≡◌, true};
ghost use Rattle.block.specs.Block.{dec_block};
ghost use Rattle.sound.specs.Question.{sound?};
ghost use Rattle.object.specs.Store.{insert};
ghost use Rattle.object.specs.Handles.{give};
ghost use Rattle.svc.specs.Call.{with_handles, create_object};
ghost use Rattle.rows.specs.Holds.{Holds};
ghost use Rattle.outcome.specs.Outcome.{outcome, left};

use block::Block;
use outcome::Outcome;
use rows::write;
use types::object::KObject;
use types::refusal::Refusal;
use units::ObjectId;

// The object goes into the first free slot, the handle behind the last one.
fn put_created(block: &mut Block, v: KObject)
    requires { sound? block.old ≡ true }
    ensures { Holds block.new (with_handles (dec_block block.old)
        (give (dec_block block.old).handles (dec_block block.old).objects.free)
        (insert (dec_block block.old).objects v)) }
{
    let head = block::get_head(block);
    let made = write::insert(block, head, v, 1);
    let given = write::give(block, made, ObjectId(head.free));
    write::put_head(block, given);
}

// r1 gets the handle.
pub fn create_object(block: &mut Block, v: KObject) -> Result<Outcome, Refusal>
    requires block_value { sound? block.old ≡ true }
    ensures value { result ≡ outcome (create_object (dec_block block.old) v) }
    ensures block_after { block.new ≡ left (create_object (dec_block block.old) v) block.old }
{
    let free = codec::get32(block, 32);
    let count = codec::get32(block, 40);
    let next = codec::get32(block, 44);
    outcome::room(free == 0 || 256 <= count, 0xFFFF8000 <= next)?;
    put_created(block, v);
    Ok(outcome::gives(next))
}
