// What a wait that succeeds takes of an object.
ghost use Rattle.std.specs.Prelude.{◌≡◌, true, false, Some, Ok};
ghost use Rattle.types.specs.Refusal.{unless_found};
ghost use Rattle.block.specs.Block.{enc_block, dec_block};
ghost use Rattle.sound.specs.View.{ids, object_at};
ghost use Rattle.sound.specs.Question.{sound?};
ghost use Rattle.pass.specs.Signal.{acquire, acquires};
ghost use Rattle.svc.specs.Call.{done, with_objects};
ghost use Rattle.lent.specs.Operations.{finding, out_of_handles?};
ghost use Rattle.outcome.specs.Outcome.{left};
ghost use Rattle.wait_calls.specs.Over.{over_now};

use block::Block;
use rows::read;
use types::refusal::Refusal;
use units::ObjectId;

// Whether a wait of the current thread on the object succeeds and finds its count too large.
pub fn over_now(block: &Block, o: ObjectId) -> bool
    ensures { result ≡ over_now (dec_block block.now).current_thread (dec_block block.now).threads
        (object_at (dec_block block.now).objects o.0) }
{
    let Some(c) = read::current(block) else {
        return false;
    };
    let x = read::slot_at(block, o);
    acquire::over_after(false, x) && wait::signaled(block, x.object, c)
}

// Refused, with the block as it is, if the lock count of a mutex does not fit any more.
#[tactic(auto, using(crate::proofs::Takes::takings))]
pub fn take(block: &mut Block, o: ObjectId, w: u32) -> Result<(), Refusal>
    requires block_value { sound? block.old ≡ true }
    requires block_value_2 { out_of_handles? (dec_block block.old) ≡ false }
    requires current_thread_value { (dec_block block.old).current_thread ≡ Some w }
    ensures value { result ≡ unless_found
        (finding (with_objects (dec_block block.old) (acquire (dec_block block.old).objects o.0 w))) tt }
    ensures block_after { block.new ≡ left
        (done (with_objects (dec_block block.old) (acquire (dec_block block.old).objects o.0 w))) block.old }
{
    take::take(block, o, w)
}

// One after the other, each with what those before left. If it is refused those before it are taken already, and the
// block is left open: `wait_saved` puts back a copy.
#[tactic(auto, using(crate::proofs::Takes::takings))]
pub fn take_list(block: &mut Block, list: &[ObjectId], w: u32) -> Result<(), Refusal>
    requires block_value { sound? block.old ≡ true }
    requires block_value_2 { out_of_handles? (dec_block block.old) ≡ false }
    requires current_thread_value { (dec_block block.old).current_thread ≡ Some w }
    ensures value { result ≡ unless_found
        (finding (with_objects (dec_block block.old) (acquires (dec_block block.old).objects (ids list.now) w))) tt }
    ensures block_after { (result ≡ Ok tt)
        → block.new ≡ enc_block (with_objects (dec_block block.old)
        (acquires (dec_block block.old).objects (ids list.now) w)) }
{
    take::take_list(block, list, w)
}
