// `create_timer`, `set_timer`, `cancel_timer` and `clear_timer` (svc.rs). Each of the three that name a timer first
// fires what came due.
ghost use Rattle.std.specs.Prelude.{◌≡◌, true};
ghost use Rattle.block.specs.Block.{dec_block};
ghost use Rattle.sound.specs.Question.{sound?};
ghost use Rattle.types.specs.declared.object.KObject.{KObject};
ghost use Rattle.svc.specs.Timers as def;
ghost use Rattle.rows.specs.Holds.{Holds};
ghost use Rattle.outcome.specs.Outcome.{outcome, left, accepted};
ghost use Rattle.timer_calls.specs.Named.{set_opened, change_caught};

use crate::{caught, set};
use block::Block;
use objects::{change, create};
use outcome::{Answer, Outcome};
use rows::read;
use signal::catch_up;
use svc::Registers;
use types::object::KObject;
use types::refusal::Refusal;
use types::sync::{ResetType, Timer};
use units::{Handle, ObjectId, Ticks};

// It is stopped.
#[tactic(auto, unfolding(svc::specs::Timers::create_timer))]
pub fn create_timer(block: &mut Block, r: Registers) -> Result<Outcome, Refusal>
    requires block_value { sound? block.old ≡ true }
    ensures value { result ≡ outcome (def.create_timer (dec_block block.old) r) }
    ensures block_after { block.new ≡ left (def.create_timer (dec_block block.old) r) block.old }
{
    create::create_object(
        block,
        KObject::Timer(Timer {
            reset_type: ResetType::from(r.r1),
            signaled: false,
            fire_at: None,
            interval: Ticks(0),
        }),
    )
}

#[tactic(auto, using(crate::proofs::Named::sets))]
fn set_opened(block: &mut Block, o: ObjectId, r: Registers, tick: Ticks) -> Outcome
    requires block_value { sound? block.old ≡ true }
    ensures value { result ≡ accepted (set_opened (dec_block block.old) o.0 r tick.0) }
    ensures holds { Holds block.new (set_opened (dec_block block.old) o.0 r tick.0).kernel }
{
    let x = read::slot_at(block, o);
    if !types::object::is_timer(x.object) {
        return Outcome::from(Answer::UnknownHandle);
    }
    let t = set::set_by(x.object, r, tick);
    change::content(block, o, x, KObject::Timer(t));
    outcome::done()
}

// r0 handle, r2 and r3 nanoseconds until it fires, r1 and r4 its period. Not by `change_caught`: it refuses other
// kinds.
pub fn set_timer(block: &mut Block, r: Registers, tick: Ticks) -> Result<Outcome, Refusal>
    requires block_value { sound? block.old ≡ true }
    ensures value { result ≡ outcome (def.set_timer (dec_block block.old) r tick.0) }
    ensures block_after { block.new ≡ left (def.set_timer (dec_block block.old) r tick.0) block.old }
{
    let o = caught::open_caught(block, Handle(r.r0), tick)?;
    Ok(set_opened(block, o, r, tick))
}

// r0 handle. Its object becomes what f makes of it. Always done, whatever the handle names.
fn change_caught<F: Fn(KObject) -> KObject>(
    block: &mut Block,
    r: Registers,
    tick: Ticks,
    f: F,
) -> Result<Outcome, Refusal>
    requires block_value { sound? block.old ≡ true }
    requires f_calls { F.IsAlwaysCallable f }
    ensures value { (g : KObject → KObject) → ((x y : KObject) → F.post f x y → y ≡ g x)
        → result ≡ outcome (change_caught g (dec_block block.old) r tick.0) }
    ensures block_after { (g : KObject → KObject) → ((x y : KObject) → F.post f x y → y ≡ g x)
        → block.new ≡ left (change_caught g (dec_block block.old) r tick.0) block.old }
{
    let o = caught::open_caught(block, Handle(r.r0), tick)?;
    let x = read::slot_at(block, o);
    let after = f(x.object);
    change::content(block, o, x, after);
    Ok(outcome::done())
}

// r0 handle. Always done, whatever the handle names.
#[tactic(auto, using(crate::proofs::Named::cancel_is))]
pub fn cancel_timer(block: &mut Block, r: Registers, tick: Ticks) -> Result<Outcome, Refusal>
    requires block_value { sound? block.old ≡ true }
    ensures value { result ≡ outcome (def.cancel_timer (dec_block block.old) r tick.0) }
    ensures block_after { block.new ≡ left (def.cancel_timer (dec_block block.old) r tick.0) block.old }
{
    change_caught(block, r, tick, set::cancelled)
}

// r0 handle. The signal goes, as that of a lost pulse does.
#[tactic(auto, using(crate::proofs::Named::clear_is))]
pub fn clear_timer(block: &mut Block, r: Registers, tick: Ticks) -> Result<Outcome, Refusal>
    requires block_value { sound? block.old ≡ true }
    ensures value { result ≡ outcome (def.clear_timer (dec_block block.old) r tick.0) }
    ensures block_after { block.new ≡ left (def.clear_timer (dec_block block.old) r tick.0) block.old }
{
    change_caught(block, r, tick, catch_up::lost_object)
}
