// Counting into an array: how often each number is named.
#![tactic(auto, using(crate::proofs::Tests::steps))]

pub mod chain;
pub mod columns;
pub mod place;

ghost use Rattle.std.specs.Prelude.{◌≡◌, ◌+◌, length};
ghost use Rattle.laws.specs.Tally.{bump, tally};
ghost use Rattle.types.specs.Thread.{wait_list};
ghost use Rattle.sound.specs.View.{ids};
ghost use Rattle.tally.specs.Lists.{slot_of, name_of, names};

use types::thread::{Thread, WAIT_LIST};
use units::ObjectId;

// One more for x: the number of an object, of a record or of a TLS slot.
pub fn bump_at(c: &mut [u32; 129], x: u32)
    ensures { c.new ≡ bump 129 c.old x }
{
    if x <= 128 && c[x as usize] < 100000 {
        c[x as usize] += 1;
    }
}

// What a number is counted as: 0 names no object, and is counted as a number that has no place. No option: `bump_at`
// passes over such a number, as over any other past the places.
pub fn name(x: u32) -> u32
    ensures { result ≡ name_of x }
{
    if x == 0 { 129 } else { x }
}

// One more for each object of one list. It differs from the next by one call; with that call as a closure, the contract
// would have to say what the closure makes of each number, and be longer than both.
pub fn tally_list(c: &mut [u32; 129], l: [ObjectId; WAIT_LIST])
    ensures c_after { c.new ≡ tally 129 c.old (ids l) }
    ensures l_len { length l ≡ wait_list }
{
    for o in &l {
        bump_at(c, o.0);
    }
}

// One more for each object that a list names.
pub fn tally_names(c: &mut [u32; 129], l: [ObjectId; WAIT_LIST])
    ensures c_after { c.new ≡ tally 129 c.old (names l) }
    ensures l_len { length l ≡ wait_list }
{
    for o in &l {
        bump_at(c, name(o.0));
    }
}

// One more for the TLS slot of a live thread.
pub fn tally_slot(m: &mut [u32; 129], t: Thread)
    ensures { m.new ≡ tally 129 m.old (slot_of t) }
{
    if !types::thread::is_dead(t.status) {
        bump_at(m, t.tls);
    }
}
