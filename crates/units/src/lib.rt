// Units: numbers that must not be mixed up have types of their own.
#![tactic(auto)]

ghost use Rattle.std.specs.Prelude.{◌≡◌, ◌+◌, ◌*◌, eqb, ltb};
ghost use Rattle.units.specs.Ticks.{nanos_to_ticks};

// Nanoseconds, as guest calls give times. The number is private to this crate: no other way leads from it to ticks than
// nanos_to_ticks.
#[derive(Clone, Copy, Default, PartialEq, Eq, PartialOrd, Ord)]
pub struct Nanos(u64);

// Ticks of the 268,111,856 Hz clock.
#[derive(Clone, Copy, Default, PartialEq, Eq, PartialOrd, Ord)]
pub struct Ticks(pub u64);

// The number of an object: its slot plus 1. 0 is no object, as in the words of the block and in the definitions: an
// Option would have to be told from that 0 at each read and write.
#[derive(Clone, Copy, Default, PartialEq, Eq, PartialOrd, Ord)]
pub struct ObjectId(pub u32);

// A handle that a guest holds.
#[derive(Clone, Copy, Default, PartialEq, Eq, PartialOrd, Ord)]
pub struct Handle(pub u32);

impl Nanos {
    pub const ZERO: Nanos = Nanos(0);

    // Two words, the low one first.
    pub fn from_words(low: u32, high: u32) -> Nanos
        ensures { result.0 ≡ low + high * 4294967296 }
    {
        Nanos(low as u64 + high as u64 * 4294967296)
    }

    pub fn is_zero(self) -> bool
        ensures { result ≡ eqb self.0 0 }
    {
        self.0 == 0
    }

    // Below 0 as a signed number of 64 bits.
    pub fn is_negative(self) -> bool
        ensures { result ≡ ltb 9223372036854775807 self.0 }
    {
        self.0.cast_signed() < 0
    }
}

// Nanoseconds in ticks, in two steps that both stay inside 64 bits. The only way from one unit to the other.
pub fn nanos_to_ticks(nanos: Nanos) -> Ticks
    ensures { result ≡ nanos_to_ticks nanos }
{
    let n = nanos.0;
    Ticks(n / 1000000000 * 268111856 + n % 1000000000 * 268111856 / 1000000000)
}
