// `arbitrate_address` (svc.rs).
ghost use Rattle.std.specs.Prelude.{◌≡◌, true, get_or, take};
ghost use Rattle.block.specs.Block.{dec_block};
ghost use Rattle.sound.specs.Question.{sound?};
ghost use Rattle.svc.specs.Call as call;
ghost use Rattle.svc.specs.Arbiter as def;
ghost use Rattle.outcome.specs.Outcome.{outcome, left};
ghost use Rattle.arbiter_calls.specs.Kinds.{on_handle, goes_on, signals, waits, waits_as};

use crate::{park, wake};
use arbiter::kind;
use block::Block;
use objects::open;
use outcome::{Answer, Outcome};
use svc::Registers;
use types::refusal::Refusal;
use types::sync::ArbitrationType;
use types::thread::WAIT_LIST;
use units::{Handle, Nanos, Ticks};

// The word at the address, 0 for a call that reads none. The words and their count are as in `dispatch`.
fn first_word(words: [u32; WAIT_LIST], n: u32) -> u32
    ensures { result ≡ get_or (take n words) 0 0 }
{
    if n == 0 {
        return 0;
    }
    words[0]
}

// An unknown kind makes no object.
fn no_kind(block: &Block) -> Result<Outcome, Refusal>
    requires block_value { sound? block.now ≡ true }
    ensures value { result ≡ outcome (call.answers 18 (dec_block block.now)) }
    ensures block_value_2 { block.now ≡ left (call.answers 18 (dec_block block.now)) block.now }
{
    outcome::room(false, outcome::out_of_handles(block))?;
    Ok(Outcome::from(Answer::UnknownKind))
}

// Threads parked at the address wake.
fn signal(block: &mut Block, h: Handle, a: u32, value: u32) -> Result<Outcome, Refusal>
    requires block_value { sound? block.old ≡ true }
    ensures value { result ≡ outcome (on_handle (dec_block block.old) h.0 (signals a value)) }
    ensures block_after { block.new ≡ left (on_handle (dec_block block.old) h.0 (signals a value)) block.old }
{
    let o = open::resolve(block, h)?;
    if o.0 == 0 {
        return Ok(Outcome::from(Answer::UnknownHandle));
    }
    wake::signal_address(block, o, a, value);
    Ok(outcome::done())
}

// The word is not less than the value: the thread goes on. `signal` opens the handle alike; a closure for the one step
// between would be longer, with what it does to the block in its contract.
fn go_on(block: &mut Block, h: Handle) -> Result<Outcome, Refusal>
    requires block_value { sound? block.old ≡ true }
    ensures value { result ≡ outcome (on_handle (dec_block block.old) h.0 goes_on) }
    ensures block_after { block.new ≡ left (on_handle (dec_block block.old) h.0 goes_on) block.old }
{
    let o = open::resolve(block, h)?;
    if o.0 == 0 {
        return Ok(Outcome::from(Answer::UnknownHandle));
    }
    Ok(outcome::done())
}

// The current thread parks if the word is less than the value.
#[tactic(auto, using(crate::proofs::ByKind::kinds))]
fn wait_below(
    block: &mut Block,
    h: Handle,
    decrements: bool,
    time: Option<Ticks>,
    a: u32,
    value: u32,
    word: u32,
    tick: Ticks,
) -> Result<Outcome, Refusal>
    requires block_value { sound? block.old ≡ true }
    ensures value { result ≡ outcome (on_handle (dec_block block.old) h.0 (waits decrements time a value word tick.0)) }
    ensures block_after { block.new ≡ left (on_handle (dec_block block.old) h.0 (waits decrements time a value word tick.0)) block.old }
{
    if !arbiter::park::is_below(word, value) {
        return go_on(block, h);
    }
    let over = arbiter::park::over_below(decrements, word);
    let written = arbiter::park::word_after(decrements, word);
    park::park_current(block, h, a, time, tick, over, written)
}

// A kind that waits.
#[tactic(auto, using(crate::proofs::ByKind::kinds))]
fn wait_kind(
    block: &mut Block,
    kind: ArbitrationType,
    r: Registers,
    word: u32,
    tick: Ticks,
) -> Result<Outcome, Refusal>
    requires block_value { sound? block.old ≡ true }
    ensures value { result ≡ outcome (on_handle (dec_block block.old) r.r0 (waits_as kind r word tick.0)) }
    ensures block_after { block.new ≡ left (on_handle (dec_block block.old) r.r0 (waits_as kind r word tick.0)) block.old }
{
    let time = arbiter::park::park_time(kind::has_timeout(kind), Nanos::from_words(r.r4, r.r5));
    let decrements = kind::decrements(kind);
    wait_below(
        block,
        Handle(r.r0),
        decrements,
        time,
        r.r1,
        r.r3,
        word,
        tick,
    )
}

// A known kind. What it calls opens the handle.
#[tactic(auto, using(crate::proofs::ByKind::kinds))]
fn arbitrate_for(
    block: &mut Block,
    kind: ArbitrationType,
    r: Registers,
    word: u32,
    tick: Ticks,
) -> Result<Outcome, Refusal>
    requires block_value { sound? block.old ≡ true }
    ensures value { result ≡ outcome (def.arbitrate_for kind (dec_block block.old) (call.resolved (dec_block block.old) r.r0) r word tick.0) }
    ensures block_after { block.new ≡ left (def.arbitrate_for kind (dec_block block.old) (call.resolved (dec_block block.old) r.r0) r word tick.0) block.old }
{
    match kind {
        ArbitrationType::Signal => signal(block, Handle(r.r0), r.r1, r.r3),
        _ => wait_kind(block, kind, r, word, tick),
    }
}

// r0 handle, r1 address, r2 kind, r3 value, r4 and r5 nanoseconds; the word at the address is the first of the n words,
// for the kinds that wait.
#[tactic(auto, using(crate::proofs::ByKind::kinds))]
pub fn arbitrate_address(
    block: &mut Block,
    r: Registers,
    words: [u32; WAIT_LIST],
    n: u32,
    tick: Ticks,
) -> Result<Outcome, Refusal>
    requires block_value { sound? block.old ≡ true }
    ensures value { result ≡ outcome (def.arbitrate_address (dec_block block.old) r (get_or (take n words) 0 0) tick.0) }
    ensures block_after { block.new ≡ left (def.arbitrate_address (dec_block block.old) r (get_or (take n words) 0 0) tick.0) block.old }
{
    match kind::from_raw(r.r2) {
        None => no_kind(block),
        Some(kind) => arbitrate_for(block, kind, r, first_word(words, n), tick),
    }
}
