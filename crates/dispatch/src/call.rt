// The calls by number (`dispatch` of svc.rs). A call changes the block where it lies.
ghost use Rattle.std.specs.Prelude.{◌≡◌, true, length, take};
ghost use Rattle.block.specs.Block.{dec_block};
ghost use Rattle.sound.specs.Question.{sound?};
ghost use Rattle.svc.specs.Call.{silent};
ghost use Rattle.svc.specs.Dispatch as def;
ghost use Rattle.outcome.specs.Outcome.{outcome, left};

use block::Block;
use outcome::Outcome;
use svc::Registers;
use types::refusal::Refusal;
use types::thread::WAIT_LIST;
use units::Ticks;

// A number that is no call's does nothing; question 3 refuses it before.
fn no_call(block: &Block) -> Result<Outcome, Refusal>
    ensures { result ≡ outcome (silent (dec_block block.now)) }
{
    outcome::room(false, outcome::out_of_handles(block))?;
    Ok(outcome::silent())
}

// The call, on the first n words, which it reads. An array and a count, not a slice: its type says that there are no
// more than twelve, which each function that a slice is handed to would have to ask for. Calls are told by their numbers,
// as the guest tells them: of one that is no call's something is promised too.
#[tactic(auto, using(crate::proofs::Numbers::calls), unfolding(svc::specs::Dispatch::call))]
pub fn call(
    block: &mut Block,
    number: u32,
    r: Registers,
    words: [u32; WAIT_LIST],
    n: u32,
    tick: Ticks,
) -> Result<Outcome, Refusal>
    requires block_value { sound? block.old ≡ true }
    ensures value { result ≡ outcome (def.call number (dec_block block.old) r (take n words) tick.0) }
    ensures block_after { block.new ≡ left (def.call number (dec_block block.old) r (take n words) tick.0) block.old }
{
    match number {
        0x08 => threads::create::create_thread(block, r),
        0x09 => threads::exit::exit_thread(block),
        0x0A => threads::sleep::sleep_thread(block, r, tick),
        0x0C => threads::priority::set_thread_priority(block, r),
        0x13 => sync_calls::mutex::create_mutex(block, r),
        0x14 => sync_calls::mutex::release_mutex(block, r),
        0x15 => sync_calls::semaphore::create_semaphore(block, r),
        0x16 => sync_calls::semaphore::release_semaphore(block, r),
        0x17 => sync_calls::event::create_event(block, r),
        0x18 => sync_calls::event::signal_event(block, r),
        0x19 => sync_calls::event::clear_event(block, r),
        0x1A => timer_calls::timers::create_timer(block, r),
        0x1B => timer_calls::timers::set_timer(block, r, tick),
        0x1C => timer_calls::timers::cancel_timer(block, r, tick),
        0x1D => timer_calls::timers::clear_timer(block, r, tick),
        0x21 => handle_calls::create_address_arbiter(block),
        0x22 => arbiter_calls::arbitrate::arbitrate_address(block, r, words, n, tick),
        0x23 => handle_calls::close::close_handle(block, r),
        0x24 => wait_calls::one::wait_synchronization1(block, r, tick),
        0x25 => wait_calls::many::wait_synchronization_n(block, r, words, n, tick),
        0x27 => handle_calls::duplicate::duplicate_handle(block, r),
        _ => no_call(block),
    }
}
