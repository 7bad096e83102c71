// The operation that makes a thread: its record, its row of the bank, and its number as the answer.
#![tactic(auto)]

ghost use Rattle.std.specs.Prelude.{◌≡◌, [], ◌*◌, ◌<◌, length};
ghost use Rattle.codec.specs.Bytes.{bytes, over};
ghost use Rattle.block.specs.Context.{enc_context};
ghost use Rattle.thread.specs.Thread.{new_context};
ghost use Rattle.types.specs.Refusal.{found_in};
ghost use Rattle.lent.specs.Lent.{lent, back};
ghost use Rattle.lent.specs.Operations.{create_thread};

use block::context::Bank;
use lent::questions;
use thread::create::NewThread;
use types::refusal::{self, Refusal};

// The row of the bank and the number.
#[tactic(auto, using(crate::proofs::Puts::puts))]
fn put_made(
    bank: &mut Bank,
    answer: &mut [u8; 4],
    word: u32,
    id: u32,
    tls: u32,
    asked: NewThread,
    arg: u32,
)
    requires id_bound { id < 32 }
    ensures bank_after { bank.new
        ≡ over bank.old (id * 208) (enc_context (new_context word asked.entry asked.stack_top arg tls)) }
    ensures answer_after { answer.new ≡ bytes 4 id }
{
    let context = thread::create::new_context(word, asked.entry, asked.stack_top, arg, tls);
    block::context::put_row(bank, id, context);
    codec::put32(answer, 0, id);
}

// A thread that is ready to start at entry.
#[tactic(auto, using(lent::proofs::Cases::cases), unfolding(lent::specs::Operations::create_thread))]
fn work(
    block: &mut [u8],
    bank: &mut [u8],
    answer: &mut [u8],
    asked: NewThread,
    arg: u32,
) -> Result<(), Refusal>
    ensures { back (found_in result) (lent block.new bank.new [] [] answer.new)
        ≡ create_thread asked.entry asked.stack_top arg asked.priority asked.processor_id
        (lent block.old bank.old [] [] answer.old) }
{
    let Some(block) = block.as_mut_array::<16384>() else {
        return Err(Refusal::Length);
    };
    let Some(bank) = bank.as_mut_array::<6656>() else {
        return Err(Refusal::Length);
    };
    let Some(answer) = answer.as_mut_array::<4>() else {
        return Err(Refusal::Length);
    };
    if !questions::block_ok(block) {
        return Err(Refusal::Unsound);
    }
    let word = codec::get32(block, 0);
    let id = vacant::ended_thread(block);
    let tls = vacant::tls_slot(block);
    spawn::create_thread(block, id, tls, asked)?;
    put_made(bank, answer, word, id, tls, asked, arg);
    Ok(())
}

// The work as C gets it.
pub fn operate(
    block: &mut [u8],
    bank: &mut [u8],
    answer: &mut [u8],
    entry: u32,
    stack_top: u32,
    arg: u32,
    priority: u32,
    processor_id: u32,
) -> u32
    ensures { back result (lent block.new bank.new [] [] answer.new) ≡ create_thread entry stack_top arg priority processor_id (lent block.old bank.old [] [] answer.old) }
{
    let asked = NewThread {
        entry,
        stack_top,
        priority,
        processor_id,
    };
    refusal::number(work(block, bank, answer, asked, arg))
}
