// A guest call, over what is lent.
#![tactic(auto)]

ghost use Rattle.std.specs.Prelude.{◌≡◌, [], ◌-◌};
ghost use Rattle.lent.specs.Lent.{lent, back};
ghost use Rattle.lent.specs.Guest as def;
ghost use Rattle.guest_call.specs.Answered.{answered};

use block::Block;
use block::context::{Bank, Processor};
use guest::{bank, registers, window};
use lent::questions;
use types::refusal::Refusal;
use units::Ticks;

// The call's own answer, or why it is refused.
#[tactic(auto, using(lent::proofs::Cases::cases), unfolding(lent::specs::Guest::dispatch))]
fn work(
    block: &mut Block,
    bank: &mut Bank,
    processor: &mut Processor,
    window: &mut [u8],
    window_base: u32,
    number: u32,
    tick: Ticks,
) -> Result<u32, Refusal>
    ensures { back (answered result) (lent block.new bank.new processor.new window.new [])
        ≡ def.dispatch window_base number tick.0 (lent block.old bank.old processor.old window.old []) }
{
    if !window::window_ok(window_base, window) {
        return Err(Refusal::Length);
    }
    if !questions::block_ok(block) {
        return Err(Refusal::Unsound);
    }
    let r = registers::registers_for(number, processor);
    table::questions::allowed(window_base, window.len() as u64, number, r, block)?;
    let n = table::questions::words_read(number, r);
    let words = window::words_in(window, window_base, number, r, n);
    let made = bank::made_by(block, number);
    let o = dispatch::call::call(block, number, r, words, n, tick)?;
    bank::put_bank(bank, made, r);
    registers::put_registers(processor, number, o.r0, o.r1);
    window::put_word(window, window_base, r, o.word);
    Ok(o.answer)
}

// The work on slices of any length: one that is not as long as it should be is refused.
#[tactic(auto, using(lent::proofs::Cases::cases), unfolding(lent::specs::Guest::dispatch))]
fn with_lengths(
    block: &mut [u8],
    bank: &mut [u8],
    processor: &mut [u8],
    window: &mut [u8],
    window_base: u32,
    number: u32,
    tick: Ticks,
) -> Result<u32, Refusal>
    ensures { back (answered result) (lent block.new bank.new processor.new window.new [])
        ≡ def.dispatch window_base number tick.0 (lent block.old bank.old processor.old window.old []) }
{
    let Some(block) = block.as_mut_array::<16384>() else {
        return Err(Refusal::Length);
    };
    let Some(bank) = bank.as_mut_array::<6656>() else {
        return Err(Refusal::Length);
    };
    let Some(processor) = processor.as_mut_array::<208>() else {
        return Err(Refusal::Length);
    };
    work(block, bank, processor, window, window_base, number, tick)
}

// The answer is the call's: 0, 16, 17 or 18.
pub fn operate(
    block: &mut [u8],
    bank: &mut [u8],
    processor: &mut [u8],
    window: &mut [u8],
    window_base: u32,
    number: u32,
    tick: Ticks,
) -> u32
    ensures { back result (lent block.new bank.new processor.new window.new [])
        ≡ def.dispatch window_base number tick.0 (lent block.old bank.old processor.old window.old []) }
{
    match with_lengths(block, bank, processor, window, window_base, number, tick) {
        Ok(answer) => answer,
        Err(refusal) => u32::from(refusal),
    }
}
