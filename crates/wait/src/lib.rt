// What satisfies a wait, read from the block where it lies (the looking part of `try_satisfy_wait`, mod.rs).
#![tactic(auto)]

ghost use Rattle.std.specs.Prelude.{◌≡◌, true, ◌≤◌, length};
ghost use Rattle.types.specs.Thread.{is_dead, wait_list};
ghost use Rattle.block.specs.Block.{dec_block};
ghost use Rattle.sound.specs.View.{ids, slot_at, thread_at};
ghost use Rattle.pass.specs.Signal.{is_signaled};
ghost use Rattle.pass.specs.Waits.{satisfied_at};
ghost use Rattle.wait.specs.Looks.{as_wanted, first_where, index_for};

use block::Block;
use rows::read;
use types::object::KObject;
use units::ObjectId;

// A number past the places counts as Dead.
#[tactic(auto, using(crate::proofs::Place::gone))]
fn is_gone(block: &Block, u: u32) -> bool
    ensures { result ≡ is_dead (thread_at (dec_block block.now).threads u).status }
{
    32 <= u || types::thread::is_dead(read::thread_at(block, u).status)
}

// Whether a wait of thread w on an object that holds x succeeds now.
pub fn signaled(block: &Block, x: KObject, w: u32) -> bool
    ensures { result ≡ is_signaled (dec_block block.now).threads x w }
{
    acquire::is_signaled(x, is_gone(block, acquire::thread_named(x)), w)
}

// Whether the signal of the object for thread w is as wanted.
fn as_wanted(block: &Block, o: ObjectId, w: u32, want: bool) -> bool
    ensures { result ≡ as_wanted want (is_signaled (dec_block block.now).threads (slot_at (dec_block block.now).objects.slots o.0).object w) }
{
    signaled(block, read::slot_at(block, o).object, w) == want
}

// The first place whose signal for thread w is as wanted.
fn first_in(block: &Block, list: &[ObjectId], w: u32, want: bool) -> Option<u32>
    requires { length list.now ≤ wait_list }
    ensures { result ≡ first_where (dec_block block.now).threads (dec_block block.now).objects.slots w want 0
        (ids list.now) }
{
    let i = list.iter().position(|o| as_wanted(block, *o, w, want))?;
    Some(i as u32)
}

// A wait for all looks for a place that is not signalled, and gives index 0 if there is none.
fn index_for(all: bool, first: Option<u32>) -> Option<u32>
    ensures { result ≡ index_for all first }
{
    match first {
        None if all => Some(0),
        Some(_i) if all => None,
        _ => first,
    }
}

// The index that a wait of thread w on the list gives now.
#[tactic(auto, using(crate::specs::Looks::index_is))]
pub fn satisfied_at(block: &Block, w: u32, all: bool, list: &[ObjectId]) -> Option<u32>
    requires { length list.now ≤ wait_list }
    ensures { result ≡ satisfied_at (dec_block block.now).threads (dec_block block.now).objects w all (ids list.now) }
{
    index_for(all, first_in(block, list, w, !all))
}
