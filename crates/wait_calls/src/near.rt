// Whether a wait on a list may find a count too large. What it finds is told only when it takes the objects, so where
// it may, the block is saved first.
ghost use Rattle.std.specs.Prelude.{◌≡◌};
ghost use Rattle.block.specs.Block.{dec_block};
ghost use Rattle.sound.specs.View.{ids};
ghost use Rattle.wait_calls.specs.Near as def;

use block::Block;
use rows::read;
use types::object::KObject;
use types::thread::WAIT_COUNT;
use units::ObjectId;

// A lock count from here on, 2^32 - WAIT_COUNT, may not fit after a wait has taken the mutex at each place of its list.
const NEAR: u32 = 4294967295 - WAIT_COUNT + 1;

// Whether the count may not fit after a wait has taken of it at each place of its list.
fn near(x: KObject) -> bool
    ensures { result ≡ def.near x }
{
    match x {
        KObject::Mutex(m) => NEAR <= m.lock_count,
        KObject::Semaphore(s) => s.count.cast_signed() < 0,
        _ => false,
    }
}

fn any_near(block: &Block, list: &[ObjectId]) -> bool
    ensures { result ≡ def.any_near (dec_block block.now).objects (ids list.now) }
{
    list.iter().any(|o| near(read::slot_at(block, *o).object))
}

// A wait for any on objects that are all there, with no timer due, writes nothing before it takes.
#[tactic(auto, using(crate::proofs::Words::cases))]
pub fn may_find(block: &Block, list: &[ObjectId], all: bool, fires: bool, known: bool) -> bool
    ensures { result ≡ def.may_find (dec_block block.now).objects (ids list.now) all fires known }
{
    let writes = all || fires || !known;
    writes && any_near(block, list)
}
