// What a call leaves. Its state goes into the block where the call ends: by value it would be copied on each way up.
#![tactic(auto)]

ghost use Rattle.std.specs.Prelude.{◌≡◌};
ghost use Rattle.types.specs.Refusal.{unless_found};
ghost use Rattle.outcome.specs.Answer.{answer_number};
ghost use Rattle.outcome.specs.Outcome as def;
ghost use Rattle.outcome.specs.Findings.{found_of};
ghost use Rattle.block.specs.Block.{dec_block};
ghost use Rattle.lent.specs.Operations.{out_of_handles?};

use block::Block;
use lent::questions;
use types::refusal::Refusal;
use units::Handle;

// What a call answers its thread; r0 gets the number.
#[derive(Clone, Copy, PartialEq, Eq)]
pub enum Answer {
    Done,
    // The handle names no object, or one of another kind.
    UnknownHandle,
    // The time-out was 0, and nothing was there.
    TimedOut,
    // ArbitrateAddress has no such kind.
    UnknownKind,
}

impl From<Answer> for u32 {
    ghost from_gives = { λ a n. n ≡ answer_number a };

    fn from(a: Answer) -> u32 {
        match a {
            Answer::Done => 0,
            Answer::UnknownHandle => 16,
            Answer::TimedOut => 17,
            Answer::UnknownKind => 18,
        }
    }
}

// What a call that is not refused leaves beside the state.
#[derive(Clone, Copy)]
pub struct Outcome {
    pub answer: u32,
    pub r0: Option<u32>,
    pub r1: Option<u32>,
    pub word: Option<u32>,
}

// Question 7 before question 8.
pub fn room(full: bool, over: bool) -> Result<(), Refusal>
    ensures { result ≡ unless_found (found_of full over) tt }
{
    if full {
        return Err(Refusal::Full);
    }
    if over {
        return Err(Refusal::Overflow);
    }
    Ok(())
}

// Question 8 of the handles as they are.
pub fn out_of_handles(block: &Block) -> bool
    ensures { result ≡ out_of_handles? (dec_block block.now) }
{
    questions::out_of_handles(Handle(codec::get32(block, 44)))
}

// The answer's number, which r0 gets too.
pub fn answers(number: u32) -> Outcome
    ensures { result ≡ def.answered number }
{
    Outcome {
        answer: number,
        r0: Some(number),
        r1: None,
        word: None,
    }
}

impl From<Answer> for Outcome {
    ghost from_gives = { λ a o. o ≡ def.answered (answer_number a) };

    fn from(a: Answer) -> Outcome {
        answers(u32::from(a))
    }
}

// Done: r0 gets 0.
pub fn done() -> Outcome
    ensures { result ≡ def.answered 0 }
{
    Outcome::from(Answer::Done)
}

// Done, and r1 gets v.
pub fn gives(v: u32) -> Outcome
    ensures { result ≡ def.given v }
{
    Outcome {
        r1: Some(v),
        ..done()
    }
}

// Done, and no register is written.
pub fn silent() -> Outcome
    ensures { result ≡ def.silent }
{
    Outcome { r0: None, ..done() }
}
