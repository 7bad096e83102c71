// The operation that makes a pass.
#![tactic(auto)]

ghost use Rattle.std.specs.Prelude.{◌≡◌, ◌+◌, ◌≤◌, true, [], Some, Ok, Err, length};
ghost use Rattle.laws.specs.Logic.{pick};
ghost use Rattle.codec.specs.Bytes.{bytes, over};
ghost use Rattle.block.specs.Block.{dec_block};
ghost use Rattle.sound.specs.Question.{sound?};
ghost use Rattle.pass.specs.Schedule as pass;
ghost use Rattle.passing.specs.Awake.{during};
ghost use Rattle.types.specs.Refusal.{found_in, unless_found};
ghost use Rattle.lent.specs.Lent.{lent, back};
ghost use Rattle.lent.specs.Operations as def;
ghost use Rattle.schedule.specs.Pass.{head_after};

use block::context::{Bank, Processor};
use block::{Block, Head};
use lent::questions;
use rows::write;
use scheduler::choose;
use types::refusal::{self, Refusal};
use units::Ticks;

// Half the bytes of a context.
const HALF: usize = 104;

// A context over what stands from at, in two parts: each is short enough to be copied in place, where the whole is
// copied by a call of memmove, which the library needs for nothing else.
fn copy_context(b: &mut [u8], at: usize, context: &[u8])
    requires context_len { length context.now ≡ 208 }
    requires room { at + 208 ≤ length b.old }
    ensures { b.new ≡ over b.old at context.now }
{
    codec::copy(b, at, &context[..HALF]);
    codec::copy(b, at + HALF, &context[HALF..]);
}

fn save_at(bank: &mut Bank, t: u32, context: &Processor)
    ensures { bank.new ≡ def.save_row bank.old (Some t) context.now }
{
    if t < 32 {
        copy_context(bank, t as usize * 208, context);
    }
}

fn save(bank: &mut Bank, saved: Option<u32>, context: &Processor)
    ensures { bank.new ≡ def.save_row bank.old saved context.now }
{
    if let Some(t) = saved {
        save_at(bank, t, context);
    }
}

// `save_at` and `save` with source and place changed over: no parameter would say that in fewer lines.
fn restore_at(context: &mut Processor, t: u32, bank: &Bank)
    ensures { context.new ≡ def.restore_row context.old (Some t) bank.now }
{
    if t < 32 {
        let from = t as usize * 208;
        copy_context(context, 0, &bank[from..from + 208]);
    }
}

fn restore(context: &mut Processor, restored: Option<u32>, bank: &Bank)
    ensures { context.new ≡ def.restore_row context.old restored bank.now }
{
    if let Some(t) = restored {
        restore_at(context, t, bank);
    }
}

// The processor goes to its row and comes from one; the answer tells whether the pass switched.
#[tactic(auto, using(crate::proofs::Passes::puts))]
fn put_passed(
    bank: &mut Bank,
    processor: &mut Processor,
    answer: &mut [u8; 4],
    saved: Option<u32>,
    restored: Option<u32>,
    switched: bool,
)
    ensures bank_after { bank.new ≡ def.save_row bank.old saved processor.old }
    ensures processor_after { processor.new ≡ def.restore_row processor.old restored
        (def.save_row bank.old saved processor.old) }
    ensures answer_after { answer.new ≡ bytes 4 (pick switched 1 0) }
{
    save(bank, saved, processor);
    restore(processor, restored, bank);
    codec::put32(answer, 0, switched as u32);
}

// The head h after the pass, with the choice of who runs.
fn head_after(h: Head, next: Option<u32>, relief: bool) -> Head
    ensures { result ≡ head_after h next relief }
{
    Head {
        current_flag: types::thread::option_flag(next),
        current_value: types::thread::option_value(next),
        all_blocked: next.is_none() as u32,
        relief: relief as u32,
        ..h
    }
}

// The pass up to its choice. Refused, with the block as it was, if a count does not fit: the tries are done in the
// block, and only a later one may find that, so a copy is kept. No byte is left open: a sound block is the encoding of
// what it decodes to.
fn try_waits(block: &mut Block, tick: Ticks) -> Result<(), Refusal>
    requires block_value { sound? block.old ≡ true }
    ensures value { result ≡ unless_found (pick (pass.tried (dec_block block.old) tick.0).objects.overflow 8 0) tt }
    ensures block_unchanged { (result ≡ Err Refusal.Overflow) → block.new ≡ block.old }
    ensures block_after { (result ≡ Ok tt)
        → dec_block block.new ≡ during (dec_block block.old) (pass.tried (dec_block block.old) tick.0) }
    ensures block_after_2 { (result ≡ Ok tt) → sound? block.new ≡ true }
{
    let before = *block;
    let tried = tries::try_waits(block, tick);
    if tried.is_err() {
        *block = before;
    }
    tried
}

// Timers fire, waits that are over end, and the most urgent thread that can run gets the core.
#[tactic(auto, using(lent::proofs::Cases::cases), unfolding(lent::specs::Operations::schedule))]
fn work(
    block: &mut [u8],
    bank: &mut [u8],
    processor: &mut [u8],
    answer: &mut [u8],
    tick: Ticks,
) -> Result<(), Refusal>
    ensures { back (found_in result) (lent block.new bank.new processor.new [] answer.new) ≡ def.schedule tick.0
        (lent block.old bank.old processor.old [] answer.old) }
{
    let Some(block) = block.as_mut_array::<16384>() else {
        return Err(Refusal::Length);
    };
    let Some(bank) = bank.as_mut_array::<6656>() else {
        return Err(Refusal::Length);
    };
    let Some(processor) = processor.as_mut_array::<208>() else {
        return Err(Refusal::Length);
    };
    let Some(answer) = answer.as_mut_array::<4>() else {
        return Err(Refusal::Length);
    };
    if !questions::block_ok(block) {
        return Err(Refusal::Unsound);
    }
    if outcome::out_of_handles(block) {
        return Err(Refusal::Overflow);
    }
    try_waits(block, tick)?;
    let head = block::get_head(block);
    let current = types::thread::option_of(head.current_flag, head.current_value);
    let tried = block::record::read_all(block, 128);
    let t = choose::choose(tried, current, head.relief == 1, tick);
    block::record::write_all(block, 128, &t.threads);
    write::put_head(block, head_after(head, t.current, t.relief));
    put_passed(bank, processor, answer, t.saved, t.restored, t.switched);
    Ok(())
}

// The work as C gets it.
pub fn operate(
    block: &mut [u8],
    bank: &mut [u8],
    processor: &mut [u8],
    answer: &mut [u8],
    tick: Ticks,
) -> u32
    ensures { back result (lent block.new bank.new processor.new [] answer.new) ≡ def.schedule tick.0
        (lent block.old bank.old processor.old [] answer.old) }
{
    refusal::number(work(block, bank, processor, answer, tick))
}
