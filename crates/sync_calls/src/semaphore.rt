// `create_semaphore` and `release_semaphore`.
ghost use Rattle.std.specs.Prelude.{◌≡◌, true, if◌then◌else◌, Some, None, length};
ghost use Rattle.block.specs.Block.{dec_block};
ghost use Rattle.sound.specs.Question.{sound?};
ghost use Rattle.svc.specs.Sync as def;
ghost use Rattle.outcome.specs.Outcome.{outcome, left};

use block::Block;
use objects::{change, create, open};
use outcome::{Answer, Outcome};
use rows::read;
use svc::Registers;
use types::object::KObject;
use types::refusal::Refusal;
use types::sync::Semaphore;
use units::Handle;

// r1 the count, r2 the maximum, signed.
#[tactic(auto, unfolding(svc::specs::Sync::create_semaphore))]
pub fn create_semaphore(block: &mut Block, r: Registers) -> Result<Outcome, Refusal>
    requires block_value { sound? block.old ≡ true }
    ensures value { result ≡ outcome (def.create_semaphore (dec_block block.old) r) }
    ensures block_after { block.new ≡ left (def.create_semaphore (dec_block block.old) r) block.old }
{
    let semaphore = Semaphore {
        count: r.r1,
        max_count: r.r2,
    };
    create::create_object(block, KObject::Semaphore(semaphore))
}

// Never more than the maximum, which cuts down a count above it too; none if the sum does not fit a signed word.
fn released(s: Semaphore, n: u32) -> Option<Semaphore>
    ensures { result ≡ (if def.sum_over s.count n then None else Some (def.released_semaphore s n)) }
{
    let sum = s.count.cast_signed().checked_add(n.cast_signed())?;
    let count = sum.min(s.max_count.cast_signed()).cast_unsigned();
    Some(Semaphore { count, ..s })
}

// r1 handle, r2 how many; r1 gets the count before. Another kind of object, and none, is no semaphore.
pub fn release_semaphore(block: &mut Block, r: Registers) -> Result<Outcome, Refusal>
    requires block_value { sound? block.old ≡ true }
    ensures value { result ≡ outcome (def.release_semaphore (dec_block block.old) r) }
    ensures block_after { block.new ≡ left (def.release_semaphore (dec_block block.old) r) block.old }
{
    let o = open::resolve(block, Handle(r.r1))?;
    let x = read::slot_at(block, o);
    let KObject::Semaphore(s) = x.object else {
        return Ok(Outcome::from(Answer::UnknownHandle));
    };
    let Some(after) = released(s, r.r2) else {
        return Err(Refusal::Overflow);
    };
    change::content(block, o, x, KObject::Semaphore(after));
    Ok(outcome::gives(s.count))
}
