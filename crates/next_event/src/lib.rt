// The operation that tells the next tick at which a pass is wanted.
#![tactic(auto)]

ghost use Rattle.std.specs.Prelude.{◌≡◌, []};
ghost use Rattle.types.specs.Refusal.{found_in};
ghost use Rattle.lent.specs.Lent.{lent, back};
ghost use Rattle.lent.specs.Operations.{tick_bytes, next_event};

use asked::event;
use codec::Two;
use lent::questions;
use types::refusal::{self, Refusal};
use units::Ticks;

fn put_tick(answer: &mut [u8; 16], at: Option<Ticks>)
    ensures { answer.new ≡ tick_bytes at }
{
    let flag = types::thread::option_flag(at);
    let value = types::thread::tick_value(at);
    codec::put_two(answer, 0, Two(flag, 0));
    codec::put64(answer, 8, value);
}

// What C gets, with the refusal itself.
#[tactic(auto, using(lent::proofs::Cases::cases), unfolding(lent::specs::Operations::next_event))]
fn look(block: &[u8], answer: &mut [u8]) -> Result<(), Refusal>
    ensures { back (found_in result) (lent block.now [] [] [] answer.new)
        ≡ next_event (lent block.now [] [] [] answer.old) }
{
    let Some(block) = block.as_array::<16384>() else {
        return Err(Refusal::Length);
    };
    let Some(answer) = answer.as_mut_array::<16>() else {
        return Err(Refusal::Length);
    };
    if !questions::block_ok(block) {
        return Err(Refusal::Unsound);
    }
    if outcome::out_of_handles(block) {
        return Err(Refusal::Overflow);
    }
    put_tick(answer, event::next_event(block));
    Ok(())
}

// The earliest tick that a blocked thread or a timer wants a pass at.
pub fn operate(block: &[u8], answer: &mut [u8]) -> u32
    ensures { back result (lent block.now [] [] [] answer.new) ≡ next_event (lent block.now [] [] [] answer.old) }
{
    refusal::number(look(block, answer))
}
