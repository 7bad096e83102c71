// The operation that tells what a wait on a list of handles would find at once.
#![tactic(auto)]

pub mod now;

ghost use Rattle.std.specs.Prelude.{◌≡◌, []};
ghost use Rattle.types.specs.Refusal.{found_in};
ghost use Rattle.lent.specs.Lent.{lent, back};
ghost use Rattle.lent.specs.Operations as def;

use codec::Two;
use lent::questions;
use pass::Satisfied;
use types::refusal::{self, Refusal};
use units::Ticks;

fn put_satisfied(answer: &mut [u8; 40], r: Satisfied)
    ensures { answer.new ≡ def.satisfied_bytes r }
{
    let flag = types::thread::option_flag(r.index);
    let value = types::thread::option_value(r.index);
    codec::put_two(answer, 0, Two(flag, value));
    block::record::write_all(answer, 8, &r.objects);
}

// What C gets, with the refusal itself.
#[tactic(auto, using(lent::proofs::Cases::cases), unfolding(lent::specs::Operations::satisfied_now))]
fn look(
    block: &[u8],
    handles: &[u8],
    answer: &mut [u8],
    wait_all: u32,
    tick: Ticks,
) -> Result<(), Refusal>
    ensures { back (found_in result) (lent block.now [] [] [] answer.new)
        ≡ def.satisfied_now handles.now wait_all tick.0 (lent block.now [] [] [] answer.old) }
{
    let Some(block) = block.as_array::<16384>() else {
        return Err(Refusal::Length);
    };
    if handles.len() % 4 != 0 {
        return Err(Refusal::Length);
    }
    let Some(answer) = answer.as_mut_array::<40>() else {
        return Err(Refusal::Length);
    };
    if !questions::block_ok(block) {
        return Err(Refusal::Unsound);
    }
    if outcome::out_of_handles(block) {
        return Err(Refusal::Overflow);
    }
    let all = wait_all != 0;
    put_satisfied(answer, now::satisfied_now(block, handles, all, tick));
    Ok(())
}

// The eight object numbers, unused places 0, and the index that the wait gives.
pub fn operate(block: &[u8], handles: &[u8], answer: &mut [u8], wait_all: u32, tick: Ticks) -> u32
    ensures { back result (lent block.now [] [] [] answer.new)
        ≡ def.satisfied_now handles.now wait_all tick.0 (lent block.now [] [] [] answer.old) }
{
    refusal::number(look(block, handles, answer, wait_all, tick))
}
