// The C interface: every export, with its whole contract. An export is lent byte slices and returns one number: 0, a
// kernel answer, or a refusal. lent/specs has the definitions.
#![tactic(auto)]

ghost use Rattle.std.specs.Prelude.{◌≡◌, []};
ghost use Rattle.lent.specs.Lent.{lent, back};
ghost use Rattle.lent.specs.Operations as def;
ghost use Rattle.lent.specs.Guest as guest;

use units::{Handle, Ticks};

// A fresh block for threads that start with this status word, and a bank of zeros.
#[unsafe(no_mangle)]
pub extern "C" fn kernel_fresh_start(block: &mut [u8], bank: &mut [u8], status_word: u32) -> u32
    ensures { back result (lent block.new bank.new [] [] []) ≡ def.fresh_start status_word (lent block.old bank.old [] [] []) }
{
    fresh_start::operate(block, bank, status_word)
}

// A thread that is ready to start at entry.
#[unsafe(no_mangle)]
pub extern "C" fn kernel_create_thread(
    block: &mut [u8],
    bank: &mut [u8],
    answer: &mut [u8],
    entry: u32,
    stack_top: u32,
    arg: u32,
    priority: u32,
    processor_id: u32,
) -> u32
    ensures { back result (lent block.new bank.new [] [] answer.new) ≡ def.create_thread entry stack_top arg priority processor_id (lent block.old bank.old [] [] answer.old) }
{
    create_thread::operate(
        block,
        bank,
        answer,
        entry,
        stack_top,
        arg,
        priority,
        processor_id,
    )
}

// Timers fire, waits that are over end, and the most urgent thread that can run gets the core.
#[unsafe(no_mangle)]
pub extern "C" fn kernel_schedule(
    block: &mut [u8],
    bank: &mut [u8],
    processor: &mut [u8],
    answer: &mut [u8],
    tick: u64,
) -> u32
    ensures { back result (lent block.new bank.new processor.new [] answer.new) ≡ def.schedule tick (lent block.old bank.old processor.old [] answer.old) }
{
    schedule::operate(block, bank, processor, answer, Ticks(tick))
}

// The earliest tick that a blocked thread or a timer wants a pass at.
#[unsafe(no_mangle)]
pub extern "C" fn kernel_next_event(block: &[u8], answer: &mut [u8]) -> u32
    ensures { back result (lent block.now [] [] [] answer.new) ≡ def.next_event (lent block.now [] [] [] answer.old) }
{
    next_event::operate(block, answer)
}

// The eight object numbers, unused places 0, and the index that the wait gives.
#[unsafe(no_mangle)]
pub extern "C" fn kernel_satisfied_now(
    block: &[u8],
    handles: &[u8],
    answer: &mut [u8],
    wait_all: u32,
    tick: u64,
) -> u32
    ensures { back result (lent block.now [] [] [] answer.new) ≡ def.satisfied_now handles.now wait_all tick (lent block.now [] [] [] answer.old) }
{
    satisfied_now::operate(block, handles, answer, wait_all, Ticks(tick))
}

// The mutex that the handle lets go of, and whether that frees it, if no pass is needed after it.
#[unsafe(no_mangle)]
pub extern "C" fn kernel_quiet_release(
    block: &[u8],
    answer: &mut [u8],
    handle: u32,
    tick: u64,
) -> u32
    ensures { back result (lent block.now [] [] [] answer.new) ≡ def.quiet_release handle tick (lent block.now [] [] [] answer.old) }
{
    quiet_release::operate(block, answer, Handle(handle), Ticks(tick))
}

// A thread ends at the host's wish.
#[unsafe(no_mangle)]
pub extern "C" fn kernel_end_thread(block: &mut [u8], id: u32) -> u32
    ensures { back result (lent block.new [] [] [] []) ≡ def.end_thread id (lent block.old [] [] [] []) }
{
    end_thread::operate(block, id)
}

// A guest call of the current thread; the number is the call's answer, 0, 16, 17 or 18.
#[unsafe(no_mangle)]
pub extern "C" fn kernel_dispatch(
    block: &mut [u8],
    bank: &mut [u8],
    processor: &mut [u8],
    window: &mut [u8],
    window_base: u32,
    number: u32,
    tick: u64,
) -> u32
    ensures { back result (lent block.new bank.new processor.new window.new []) ≡ guest.dispatch window_base number tick (lent block.old bank.old processor.old window.old []) }
{
    guest_call::operate(
        block,
        bank,
        processor,
        window,
        window_base,
        number,
        Ticks(tick),
    )
}

// The current thread's recorded result of a wait, handed out once.
#[unsafe(no_mangle)]
pub extern "C" fn kernel_collect(block: &mut [u8], answer: &mut [u8]) -> u32
    ensures { back result (lent block.new [] [] [] answer.new) ≡ guest.collect (lent block.old [] [] [] answer.old) }
{
    collect::operate(block, answer)
}
