// A thread parks at an address (the waiting kinds of `arbitrate_address`).
ghost use Rattle.std.specs.Prelude.{◌≡◌, true, false, Some};
ghost use Rattle.laws.specs.Logic.{◌and◌};
ghost use Rattle.block.specs.Block.{dec_block};
ghost use Rattle.sound.specs.Question.{sound?};
ghost use Rattle.types.specs.Refusal.{unless_found};
ghost use Rattle.svc.specs.Arbiter as def;
ghost use Rattle.rows.specs.Holds.{Holds};
ghost use Rattle.outcome.specs.Outcome.{outcome, left};
ghost use Rattle.objects.specs.Open.{no_room};
ghost use Rattle.arbiter_calls.specs.Kinds.{on_handle, parks};
ghost use Rattle.arbiter_calls.specs.Found.{stores_as, no_record, known, found_parking};

use crate::record;
use arbiter::park;
use block::Block;
use objects::open;
use outcome::{Answer, Outcome};
use rows::{read, write};
use types::refusal::Refusal;
use units::{Handle, ObjectId, Ticks};

// Whether the current thread would store a record; without a current thread nobody parks.
#[tactic(auto, using(crate::proofs::Records::places))]
fn stores_as(block: &Block, current: Option<u32>, o: ObjectId, a: u32) -> bool
    ensures { result ≡ stores_as (dec_block block.now).objects current o.0 a }
{
    current.is_some_and(|c| record::place_for(block, o, c, a).is_some())
}

// A record would be stored, and none is free. A pseudo-handle names no arbiter, and only an arbiter stores records.
#[tactic(auto, using(crate::proofs::Found::asks))]
fn no_record(block: &Block, h: Handle, a: u32) -> bool
    ensures { result ≡ no_record (dec_block block.now) h.0 a }
{
    codec::get32(block, 36) == 0
        && stores_as(
            block,
            read::current(block),
            asked::open::open_object(block, h),
            a,
        )
}

// A sum that does not fit counts only where the thread parks: if the handle names an object.
#[tactic(auto, using(crate::proofs::Found::asks))]
fn over_known(block: &Block, h: Handle, over: bool) -> bool
    requires block_value { sound? block.now ≡ true }
    requires h_value { no_room (dec_block block.now) h.0 ≡ false }
    ensures { result ≡ over and known (dec_block block.now) h.0 }
{
    over && open::names(block, h)
}

// What is found if the current thread parks through the handle; over says that a sum of the call does not fit.
#[tactic(auto, using(crate::proofs::Found::asks), unfolding(crate::specs::Found::found_parking))]
fn found_parking(block: &Block, h: Handle, a: u32, over: bool) -> Result<(), Refusal>
    requires block_value { sound? block.now ≡ true }
    ensures { result ≡ unless_found (found_parking (dec_block block.now) h.0 a over) tt }
{
    if open::no_room(block, h) {
        return Err(Refusal::Full);
    }
    let full = no_record(block, h, a);
    outcome::room(
        full,
        over_known(block, h, over) || outcome::out_of_handles(block),
    )
}

// With a record at the end of the arbiter's chain; with an object of another kind it parks without one.
fn park_at(block: &mut Block, c: u32, o: ObjectId, a: u32, time: Option<Ticks>, tick: Ticks)
    requires block_value { sound? block.old ≡ true }
    requires current_thread_value { (dec_block block.old).current_thread ≡ Some c }
    ensures { Holds block.new (def.park_as (Some c) (dec_block block.old) o.0 a time tick.0) }
{
    let t = read::thread_at(block, c);
    let wake = begin::wake_tick(time, tick);
    record::put_pushed(block, o, c, a);
    write::put_thread(block, c, park::parked(t, a, wake));
}

// Without a current thread nobody parks.
fn park_by(block: &mut Block, o: ObjectId, a: u32, time: Option<Ticks>, tick: Ticks)
    requires block_value { sound? block.old ≡ true }
    ensures { Holds block.new (def.park (dec_block block.old) o.0 a time tick.0) }
{
    if let Some(c) = read::current(block) {
        park_at(block, c, o, a, time, tick);
    }
}

// The current thread parks, and the word is written. What would be found is looked for before the object of a
// pseudo-handle is made: a finding must leave the block as it was.
pub fn park_current(
    block: &mut Block,
    h: Handle,
    a: u32,
    time: Option<Ticks>,
    tick: Ticks,
    over: bool,
    word: Option<u32>,
) -> Result<Outcome, Refusal>
    requires block_value { sound? block.old ≡ true }
    ensures value { result ≡ outcome (on_handle (dec_block block.old) h.0 (parks a time tick.0 over word)) }
    ensures block_after { block.new ≡ left (on_handle (dec_block block.old) h.0 (parks a time tick.0 over word)) block.old }
{
    found_parking(block, h, a, over)?;
    let o = open::resolve(block, h)?;
    if o.0 == 0 {
        return Ok(Outcome::from(Answer::UnknownHandle));
    }
    park_by(block, o, a, time, tick);
    Ok(Outcome {
        word,
        ..outcome::done()
    })
}
