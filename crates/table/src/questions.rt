// Questions 3 to 6, which are a call's own.
ghost use Rattle.std.specs.Prelude.{◌≡◌};
ghost use Rattle.types.specs.Refusal.{unless_found};
ghost use Rattle.block.specs.Block.{dec_block};
ghost use Rattle.sound.specs.View.{thread_at};
ghost use Rattle.pass.specs.Pick.{is_running};
ghost use Rattle.svc.specs.Dispatch as def;

use block::Block;
use rows::read;
use svc::Registers;
use types::refusal::Refusal;
use types::thread::WAIT_COUNT;

// How many words a call reads at r1. Guest calls have the numbers of the guest's interface, here and above: what is
// public promises something of every number.
#[tactic(auto, using(laws::specs::Logic::and_yes, laws::specs::Logic::and_no))]
pub fn words_read(number: u32, r: Registers) -> u32
    ensures { result ≡ def.words_read number r }
{
    if number == 0x25 {
        return r.r2;
    }
    if number == 0x22 && (1 <= r.r2 && r.r2 <= 4) {
        1
    } else {
        0
    }
}

#[tactic(auto, using(crate::proofs::Rows::asks))]
fn is_running_at(block: &Block, c: u32) -> bool
    ensures { result ≡ is_running (thread_at (dec_block block.now).threads c).status }
{
    c < 32 && pick::is_running(read::thread_at(block, c).status)
}

fn runs_as(current: Option<u32>, block: &Block) -> bool
    ensures { result ≡ def.runs_as current (dec_block block.now).threads }
{
    current.is_some_and(|c| is_running_at(block, c))
}

// Question 4: there is a current thread, Running.
#[tactic(auto, using(crate::proofs::Rows::asks))]
pub fn runs(block: &Block) -> bool
    ensures { result ≡ def.runs? (dec_block block.now) }
{
    runs_as(read::current(block), block)
}

// Question 5: no more handles than a thread's list has places.
#[tactic(auto, using(crate::proofs::Rows::asks))]
fn too_many(number: u32, r: Registers) -> bool
    ensures { result ≡ def.too_many? number r }
{
    number == 0x25 && WAIT_COUNT < r.r2
}

#[tactic(auto, using(laws::specs::Logic::and_yes, laws::specs::Logic::and_no))]
fn in_window(base: u32, len: u64, a: u32, n: u32) -> bool
    ensures { result ≡ def.in_window base len a n }
{
    a % 4 == 0 && (base <= a && (a - base) as u64 + 4 * n as u64 <= len)
}

// Question 6: the words that the call reads are in the window.
#[tactic(auto, using(crate::proofs::Rows::asks))]
fn outside(base: u32, len: u64, number: u32, r: Registers) -> bool
    ensures { result ≡ def.outside? base len number r }
{
    let n = words_read(number, r);
    n != 0 && !in_window(base, len, r.r1, n)
}

// Questions 3 to 6, the first that says no first. The window is told by two numbers, as C gives it and as the questions
// are defined.
#[tactic(auto, unfolding(svc::specs::Dispatch::refusal))]
pub fn allowed(base: u32, len: u64, number: u32, r: Registers, block: &Block) -> Result<(), Refusal>
    ensures { result ≡ unless_found (def.refusal base len number r (dec_block block.now)) tt }
{
    if !crate::known(number) {
        return Err(Refusal::UnknownCall);
    }
    if !runs(block) {
        return Err(Refusal::NoThread);
    }
    if too_many(number, r) {
        return Err(Refusal::TooManyHandles);
    }
    if outside(base, len, number, r) {
        return Err(Refusal::OutsideWindow);
    }
    Ok(())
}
