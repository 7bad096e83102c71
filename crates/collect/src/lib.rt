// Collect, over what is lent.
#![tactic(auto, using(crate::proofs::Absent::reads))]

pub mod results;

ghost use Rattle.std.specs.Prelude.{◌≡◌, [], ◌++◌, length};
ghost use Rattle.codec.specs.Bytes.{bytes};
ghost use Rattle.types.specs.Thread.{result_number, result_index, syscall_number};
ghost use Rattle.types.specs.Refusal.{found_in};
ghost use Rattle.lent.specs.Lent.{lent, back};
ghost use Rattle.lent.specs.Guest as def;

use codec::Two;
use lent::questions;
use types::refusal::{self, Refusal};
use types::thread::{WaitResult, WaitSyscall};

// The result, its index, and the kind of the call that waited.
fn put_collected(answer: &mut [u8; 12], res: Option<WaitResult>, call: Option<WaitSyscall>)
    ensures { answer.new ≡ (bytes 4 (result_number res) ++ bytes 4 (result_index res)) ++ bytes 4 (syscall_number call) }
{
    let number = types::thread::result_number(res);
    let index = types::thread::result_index(res);
    let kind = types::thread::syscall_number(call);
    codec::put_two(answer, 0, Two(number, index));
    codec::put32(answer, 8, kind);
}

#[tactic(auto, using(lent::proofs::Cases::cases), unfolding(lent::specs::Guest::collect))]
fn work(block: &mut [u8], answer: &mut [u8]) -> Result<(), Refusal>
    ensures { back (found_in result) (lent block.new [] [] [] answer.new)
        ≡ def.collect (lent block.old [] [] [] answer.old) }
{
    let Some(block) = block.as_mut_array::<16384>() else {
        return Err(Refusal::Length);
    };
    let Some(answer) = answer.as_mut_array::<12>() else {
        return Err(Refusal::Length);
    };
    if !questions::block_ok(block) {
        return Err(Refusal::Unsound);
    }
    if !table::questions::runs(block) {
        return Err(Refusal::NoThread);
    }
    if outcome::out_of_handles(block) {
        return Err(Refusal::Overflow);
    }
    let result = results::collected_result(block);
    let call = results::collected_syscall(block);
    results::collect(block);
    put_collected(answer, result, call);
    Ok(())
}

// The work as C gets it.
pub fn operate(block: &mut [u8], answer: &mut [u8]) -> u32
    ensures { back result (lent block.new [] [] [] answer.new) ≡ def.collect (lent block.old [] [] [] answer.old) }
{
    refusal::number(work(block, answer))
}
