// What comes before a call that first fires what came due.
ghost use Rattle.std.specs.Prelude.{◌≡◌, true, false};
ghost use Rattle.laws.specs.Logic.{◌or◌};
ghost use Rattle.block.specs.Block.{dec_block};
ghost use Rattle.sound.specs.Question.{sound?};
ghost use Rattle.pass.specs.Timers.{timer_due};
ghost use Rattle.svc.specs.Call.{with_objects, resolved};
ghost use Rattle.svc.specs.Timers as def;
ghost use Rattle.types.specs.Refusal.{found_in, unless_found};
ghost use Rattle.lent.specs.Operations.{out_of_handles?};
ghost use Rattle.outcome.specs.Findings.{found_of};
ghost use Rattle.objects.specs.Open.{Opens};

use block::Block;
use objects::open;
use types::refusal::Refusal;
use units::{Handle, ObjectId, Ticks};

#[tactic(auto, using(crate::proofs::Opened::fires))]
fn over_if(block: &Block, fires: bool, tick: Ticks) -> bool
    requires fires_value { fires ≡ timer_due tick.0 (dec_block block.now).objects.slots }
    ensures { result ≡ (def.caught_up (dec_block block.now) tick.0).objects.overflow }
{
    fires && due::over(block, tick)
}

// What a call would find already, looked for before the first write: a count of periods may not fit, the handles may
// be used up. full tells whether there is no slot for an object that the call would make.
#[tactic(auto, using(crate::proofs::Opened::fires))]
pub fn found_before(block: &Block, full: bool, fires: bool, tick: Ticks) -> Result<(), Refusal>
    requires fires_value { fires ≡ timer_due tick.0 (dec_block block.now).objects.slots }
    ensures { result ≡ unless_found
        (found_of full ((def.caught_up (dec_block block.now) tick.0).objects.overflow or out_of_handles?
        (dec_block block.now))) tt }
{
    outcome::room(
        full,
        over_if(block, fires, tick) || outcome::out_of_handles(block),
    )
}

// Timers that came due by the tick fire.
#[tactic(auto, using(crate::proofs::Opened::fires))]
pub fn catch_up_if(block: &mut Block, fires: bool, tick: Ticks)
    requires block_value { sound? block.old ≡ true }
    requires fires_value { fires ≡ timer_due tick.0 (dec_block block.old).objects.slots }
    requires tick_value { (def.caught_up (dec_block block.old) tick.0).objects.overflow ≡ false }
    ensures block_after { dec_block block.new ≡ def.caught_up (dec_block block.old) tick.0 }
    ensures block_after_2 { sound? block.new ≡ true }
{
    if fires {
        due::catch_up(block, tick);
    }
}

// Timers that came due fire, then the handle is opened. If it is refused the block stays as it is.
#[tactic(auto, using(crate::proofs::Opened::opens))]
pub fn open_caught(block: &mut Block, h: Handle, tick: Ticks) -> Result<ObjectId, Refusal>
    requires block_value { sound? block.old ≡ true }
    ensures opens { Opens (def.caught_up (dec_block block.old) tick.0)
        (resolved (def.caught_up (dec_block block.old) tick.0) h.0) block.old block.new result }
    ensures block_after { sound? block.new ≡ true }
    ensures block_after_2 { (found_in result ≡ 0)
        → dec_block block.new ≡ with_objects (def.caught_up (dec_block block.old) tick.0)
        (resolved (def.caught_up (dec_block block.old) tick.0) h.0).store }
{
    let fires = due::timer_due(block, tick);
    found_before(block, open::no_room(block, h), fires, tick)?;
    catch_up_if(block, fires, tick);
    open::resolve(block, h)
}
