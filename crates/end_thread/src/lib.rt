// The operation that ends a thread.
#![tactic(auto)]

ghost use Rattle.std.specs.Prelude.{◌≡◌, []};
ghost use Rattle.block.specs.Block.{dec_block};
ghost use Rattle.types.specs.Refusal.{found_in, unless_found};
ghost use Rattle.lent.specs.Lent.{lent, back};
ghost use Rattle.lent.specs.Operations.{end_refusal, end_thread};

use block::Block;
use lent::questions;
use rows::read;
use types::refusal::{self, Refusal};

// The thread exists and is not Dead. A number past the places reads as a Dead thread.
fn end_refusal(block: &Block, t: u32) -> Result<(), Refusal>
    ensures { result ≡ unless_found (end_refusal t (dec_block block.now)) tt }
{
    if codec::get32(block, 4) <= t || 32 <= t {
        return Err(Refusal::NoThread);
    }
    if types::thread::is_dead(read::thread_at(block, t).status) {
        return Err(Refusal::NoThread);
    }
    Ok(())
}

// A thread ends at the host's wish.
#[tactic(auto, using(lent::proofs::Cases::cases), unfolding(lent::specs::Operations::end_thread))]
fn work(block: &mut [u8], id: u32) -> Result<(), Refusal>
    ensures { back (found_in result) (lent block.new [] [] [] []) ≡ end_thread id (lent block.old [] [] [] []) }
{
    let Some(block) = block.as_mut_array::<16384>() else {
        return Err(Refusal::Length);
    };
    if !questions::block_ok(block) {
        return Err(Refusal::Unsound);
    }
    end_refusal(block, id)?;
    ending::end_thread(block, id)?;
    Ok(())
}

// The work as C gets it.
pub fn operate(block: &mut [u8], id: u32) -> u32
    ensures { back result (lent block.new [] [] [] []) ≡ end_thread id (lent block.old [] [] [] []) }
{
    refusal::number(work(block, id))
}
