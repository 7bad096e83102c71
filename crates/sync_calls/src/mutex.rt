// `create_mutex` and `release_mutex`.
ghost use Rattle.std.specs.Prelude.{not, eqb, ◌≡◌, true, length};
ghost use Rattle.block.specs.Block.{dec_block};
ghost use Rattle.sound.specs.Question.{sound?};
ghost use Rattle.svc.specs.Sync as def;
ghost use Rattle.outcome.specs.Outcome.{outcome, left};

use block::Block;
use objects::{change, create, open};
use outcome::{Answer, Outcome};
use rows::read;
use svc::Registers;
use types::object::KObject;
use types::refusal::Refusal;
use types::sync::Mutex;
use units::Handle;

fn new_mutex(current: Option<u32>, locked: bool) -> Mutex
    ensures { result ≡ def.new_mutex current locked }
{
    if locked {
        Mutex {
            owner: current,
            lock_count: 1,
        }
    } else {
        Mutex {
            owner: None,
            lock_count: 0,
        }
    }
}

// r1 whether the current thread has it at once.
#[tactic(auto, unfolding(svc::specs::Sync::create_mutex))]
pub fn create_mutex(block: &mut Block, r: Registers) -> Result<Outcome, Refusal>
    requires block_value { sound? block.old ≡ true }
    ensures value { result ≡ outcome (def.create_mutex (dec_block block.old) r) }
    ensures block_after { block.new ≡ left (def.create_mutex (dec_block block.old) r) block.old }
{
    let m = new_mutex(read::current(block), r.r1 != 0);
    create::create_object(block, KObject::Mutex(m))
}

// With the last lock it has no owner.
fn unlocked(m: Mutex) -> Mutex
    ensures { result ≡ def.unlocked m }
{
    let lock_count = m.lock_count.saturating_sub(1);
    let owner = if lock_count == 0 { None } else { m.owner };
    Mutex { owner, lock_count }
}

// r0 handle; any thread may let go of it. Another kind of object, and none, is no mutex.
pub fn release_mutex(block: &mut Block, r: Registers) -> Result<Outcome, Refusal>
    requires block_value { sound? block.old ≡ true }
    ensures value { result ≡ outcome (def.release_mutex (dec_block block.old) r) }
    ensures block_after { block.new ≡ left (def.release_mutex (dec_block block.old) r) block.old }
{
    let o = open::resolve(block, Handle(r.r0))?;
    let x = read::slot_at(block, o);
    let KObject::Mutex(m) = x.object else {
        return Ok(Outcome::from(Answer::UnknownHandle));
    };
    change::content(block, o, x, KObject::Mutex(unlocked(m)));
    Ok(outcome::done())
}
