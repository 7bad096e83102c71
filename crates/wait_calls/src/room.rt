// Whether there are slots for the objects that a list of handles makes: at most the current thread's and the process's.
ghost use Rattle.std.specs.Prelude.{◌≡◌};
ghost use Rattle.laws.specs.Logic.{◌and◌};
ghost use Rattle.block.specs.Block.{dec_block};
ghost use Rattle.objects.specs.Open.{makes};
ghost use Rattle.wait_calls.specs.Room as def;

use block::Block;
use objects::open;
use rows::read;
use units::{Handle, ObjectId};

// Whether the pseudo-handle p is among the handles, before one that names no object.
#[tactic(auto, using(crate::proofs::Words::steps), unfolding(crate::specs::Room::met))]
fn met(block: &Block, handles: &[u32], p: Handle) -> bool
    ensures { result ≡ def.met (dec_block block.now).current_thread (dec_block block.now).handles p.0 handles.now }
{
    for h in handles {
        if *h == p.0 {
            return true;
        }
        if !open::names(block, Handle(*h)) {
            return false;
        }
    }
    false
}

// And its object is yet to be made.
#[tactic(auto, using(crate::proofs::Words::cases))]
fn wants(block: &Block, handles: &[u32], p: Handle) -> bool
    ensures { result ≡ (makes (dec_block block.now) p.0 and def.met (dec_block block.now).current_thread
        (dec_block block.now).handles p.0 handles.now) }
{
    open::makes(block, p) && met(block, handles, p)
}

// With no slot free one object is too many, with one slot two are.
#[tactic(auto, using(crate::proofs::Words::cases))]
fn lacking(none: bool, one: bool, thread: bool, process: bool) -> bool
    ensures { result ≡ def.lacking none one thread process }
{
    if none {
        return thread || process;
    }
    let both = thread && process;
    one && both
}

// Whether the handles make more objects than slots are free.
pub fn lacks_room(block: &Block, handles: &[u32]) -> bool
    ensures { result ≡ def.lacks_room (dec_block block.now).current_thread (dec_block block.now).handles
        (dec_block block.now).objects handles.now }
{
    let thread = wants(block, handles, Handle(0xFFFF8000));
    let process = wants(block, handles, Handle(0xFFFF8001));
    let free = codec::get32(block, 32);
    let x = read::slot_at(block, ObjectId(free));
    lacking(
        free == 0,
        types::object::next_of(x.object) == 0,
        thread,
        process,
    )
}
