// The operation that starts anew.
#![tactic(auto)]

ghost use Rattle.std.specs.Prelude.{◌≡◌, []};
ghost use Rattle.types.specs.Refusal.{found_in};
ghost use Rattle.lent.specs.Lent.{lent, back};
ghost use Rattle.lent.specs.Operations.{fresh_start};

use types::refusal::{self, Refusal};

// A fresh block for threads that start with this status word, and a bank of zeros.
#[tactic(auto, using(lent::proofs::Cases::cases), unfolding(lent::specs::Operations::fresh_start))]
fn work(block: &mut [u8], bank: &mut [u8], status_word: u32) -> Result<(), Refusal>
    ensures { back (found_in result) (lent block.new bank.new [] [] [])
        ≡ fresh_start status_word (lent block.old bank.old [] [] []) }
{
    let Some(block) = block.as_mut_array::<16384>() else {
        return Err(Refusal::Length);
    };
    let Some(bank) = bank.as_mut_array::<6656>() else {
        return Err(Refusal::Length);
    };
    block::encode(block, kernel::fresh::fresh_kernel(status_word));
    codec::put_zeros(bank, 0, 6656);
    Ok(())
}

// The work as C gets it.
pub fn operate(block: &mut [u8], bank: &mut [u8], status_word: u32) -> u32
    ensures { back result (lent block.new bank.new [] [] []) ≡ fresh_start status_word (lent block.old bank.old [] [] []) }
{
    refusal::number(work(block, bank, status_word))
}
