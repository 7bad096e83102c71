// The object that a handle names (`resolve` of mod.rs). The current thread's and the process's are made on first use.
ghost use Rattle.std.specs.Prelude.{◌≡◌, true, ltb, length, Some};
ghost use Rattle.laws.specs.Logic.{pick};
ghost use Rattle.block.specs.Block.{dec_block};
ghost use Rattle.sound.specs.Question.{sound?};
ghost use Rattle.object.specs.Slots.{with_process};
ghost use Rattle.object.specs.Store.{insert};
ghost use Rattle.object.specs.Kept.{of_current};
ghost use Rattle.svc.specs.Call.{with_objects, resolved};
ghost use Rattle.types.specs.Refusal.{unless_found};
ghost use Rattle.lent.specs.Operations.{finding};
ghost use Rattle.rows.specs.Holds.{Holds};
ghost use Rattle.objects.specs.Open.{Opens, of_process, makes_current, no_room, named, found_making};
ghost use Rattle.objects.specs.Open as def;

use block::{Block, Head};
use rows::{read, write};
use types::object::KObject;
use types::refusal::Refusal;
use units::{Handle, ObjectId};

// A new object in the first free slot, and the number of the process's.
fn put_inserted(block: &mut Block, v: KObject, process: ObjectId)
    requires block_value { sound? block.old ≡ true }
    ensures { Holds block.new (with_objects (dec_block block.old)
        (with_process (insert (dec_block block.old).objects v) process)) }
{
    let head = block::get_head(block);
    let made = write::insert(block, head, v, 1);
    write::put_head(
        block,
        Head {
            process_object: process.0,
            ..made
        },
    );
}

// Nothing is made.
fn there(block: &Block, o: ObjectId) -> Result<ObjectId, Refusal>
    ensures { result ≡ unless_found (finding (dec_block block.now)) o }
{
    outcome::room(false, outcome::out_of_handles(block))?;
    Ok(o)
}

// Room for an object that must be made.
#[tactic(auto, unfolding(block::specs::Block::dec_block, codec::specs::Layout::dec_as))]
fn room_to_make(block: &Block) -> Result<(), Refusal>
    ensures { result ≡ unless_found (found_making (dec_block block.now)) tt }
{
    outcome::room(codec::get32(block, 32) == 0, outcome::out_of_handles(block))
}

// A number past the places keeps no object.
fn kept_after(t: u32, o: ObjectId) -> ObjectId
    ensures { result.0 ≡ pick (ltb t 32) o.0 0 }
{
    if t < 32 {
        return o;
    }
    ObjectId(0)
}

// If it is refused the block stays as it is.
fn open_thread(block: &mut Block, t: u32) -> Result<ObjectId, Refusal>
    requires block_value { sound? block.old ≡ true }
    ensures { Opens (dec_block block.old)
        (of_current (dec_block block.old).objects (Some t)) block.old block.new result }
{
    let o = read::kept_at(block, t);
    if o.0 != 0 {
        return there(block, o);
    }
    room_to_make(block)?;
    let free = codec::get32(block, 32);
    let process = codec::get32(block, 48);
    put_inserted(block, KObject::Thread(t), ObjectId(process));
    write::put_kept(block, t, ObjectId(free));
    Ok(kept_after(t, ObjectId(free)))
}

fn open_process(block: &mut Block) -> Result<ObjectId, Refusal>
    requires block_value { sound? block.old ≡ true }
    ensures { Opens (dec_block block.old) (of_process (dec_block block.old).objects) block.old block.new result }
{
    let o = codec::get32(block, 48);
    if o != 0 {
        return there(block, ObjectId(o));
    }
    room_to_make(block)?;
    let free = codec::get32(block, 32);
    put_inserted(block, KObject::Process, ObjectId(free));
    Ok(ObjectId(free))
}

fn open_current(block: &mut Block, current: Option<u32>) -> Result<ObjectId, Refusal>
    requires block_value { sound? block.old ≡ true }
    ensures { Opens (dec_block block.old)
        (of_current (dec_block block.old).objects current) block.old block.new result }
{
    match current {
        None => there(block, ObjectId(0)),
        Some(t) => open_thread(block, t),
    }
}

// The object, 0 if there is none. If it is refused the block stays as it is. The two pseudo-handles are numbers of the
// guest's interface, here and below.
pub fn resolve(block: &mut Block, h: Handle) -> Result<ObjectId, Refusal>
    requires block_value { sound? block.old ≡ true }
    ensures opens { Opens (dec_block block.old) (resolved (dec_block block.old) h.0) block.old block.new result }
    ensures block_after { sound? block.new ≡ true }
{
    let n = h.0;
    if n == 0xFFFF8000 {
        let current = read::current(block);
        return open_current(block, current);
    }
    if n == 0xFFFF8001 {
        return open_process(block);
    }
    let o = read::resolve(block, h);
    there(block, o)
}

fn makes_current(block: &Block, current: Option<u32>) -> bool
    ensures { result ≡ makes_current (dec_block block.now).objects current }
{
    current.is_some_and(|t| read::kept_at(block, t).0 == 0)
}

// The object of the handle is yet to be made.
#[tactic(auto, using(crate::proofs::Room::rooms))]
pub fn makes(block: &Block, h: Handle) -> bool
    ensures { result ≡ def.makes (dec_block block.now) h.0 }
{
    let n = h.0;
    if n == 0xFFFF8000 {
        let current = read::current(block);
        return makes_current(block, current);
    }
    if n == 0xFFFF8001 {
        return codec::get32(block, 48) == 0;
    }
    false
}

// It is, and no slot is free. For a call that writes before it opens the handle.
#[tactic(auto, using(crate::proofs::Room::rooms))]
pub fn no_room(block: &Block, h: Handle) -> bool
    ensures { result ≡ no_room (dec_block block.now) h.0 }
{
    codec::get32(block, 32) == 0 && makes(block, h)
}

// Whether the handle names an object once it is open.
pub fn names(block: &Block, h: Handle) -> bool
    ensures { result ≡ named (dec_block block.now).current_thread (dec_block block.now).handles h.0 }
{
    let n = h.0;
    if n == 0xFFFF8000 {
        return read::current(block).is_some();
    }
    if n == 0xFFFF8001 {
        return true;
    }
    let o = read::resolve(block, h);
    o.0 != 0
}
