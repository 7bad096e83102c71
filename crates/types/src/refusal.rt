// Why an operation is refused.
ghost use Rattle.std.specs.Prelude.{◌≡◌};
ghost use Rattle.types.specs.Refusal.{refusal_number, found_in};

// The question that an operation asked and whose answer was no, by its number: the host gets that.
#[derive(Clone, Copy, PartialEq, Eq)]
pub enum Refusal {
    // A lent slice has another length than it should.
    Length,
    // The block is none that an operation leaves.
    Unsound,
    // No guest call has this number.
    UnknownCall,
    // No thread runs, or the one to end does not live.
    NoThread,
    // More handles than a thread's list has places.
    TooManyHandles,
    // Words that the call reads are not in the window.
    OutsideWindow,
    // Something does not fit: a thread, an object, a handle, a record.
    Full,
    // A count or a number does not fit.
    Overflow,
}

impl From<Refusal> for u32 {
    ghost from_gives = { λ r n. n ≡ refusal_number r };

    fn from(r: Refusal) -> u32 {
        match r {
            Refusal::Length => 1,
            Refusal::Unsound => 2,
            Refusal::UnknownCall => 3,
            Refusal::NoThread => 4,
            Refusal::TooManyHandles => 5,
            Refusal::OutsideWindow => 6,
            Refusal::Full => 7,
            Refusal::Overflow => 8,
        }
    }
}

// What C gets of an operation: 0, or the number of the refusal.
pub fn number(answer: Result<(), Refusal>) -> u32
    ensures { result ≡ found_in answer }
{
    match answer {
        Ok(()) => 0,
        Err(r) => u32::from(r),
    }
}
