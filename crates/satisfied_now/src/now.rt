// What a wait on a list of handles would find at once (`satisfied_now`), read from the block where it lies.
ghost use Rattle.std.specs.Prelude.{◌≡◌, map, ◌/◌, ◌≤◌, length, Some};
ghost use Rattle.block.specs.Block.{dec_block};
ghost use Rattle.sound.specs.View.{ids};
ghost use Rattle.kernel.specs.NextEvent.{contains};
ghost use Rattle.pass.specs.Asks as def;
ghost use Rattle.lent.specs.Operations.{words};
ghost use Rattle.satisfied_now.specs.Found.{satisfied_in};

use asked::open;
use block::Block;
use pass::{Satisfied, WAIT_AT_ONCE};
use rows::read;
use units::{Handle, ObjectId, Ticks};

fn open_list(b: &Block, handles: &[u8]) -> [ObjectId; WAIT_AT_ONCE]
    requires { length handles.now / 4 ≤ def.wait_at_once }
    ensures { result ≡ def.padded def.wait_at_once (map (def.open_object (dec_block b.now)) (words handles.now)) }
{
    let mut l = [ObjectId(0); WAIT_AT_ONCE];
    for i in 0..handles.len() / 4 {
        l[i] = open::open_object(b, Handle(codec::get32(handles, i * 4)));
    }
    l
}

fn any_none(list: &[ObjectId]) -> bool
    ensures { result ≡ contains (ids list.now) 0 }
{
    list.contains(&ObjectId(0))
}

fn unsatisfied() -> Satisfied
    ensures { result ≡ def.unsatisfied }
{
    Satisfied {
        objects: [ObjectId(0); WAIT_AT_ONCE],
        index: None,
    }
}

// A wait on the first n of l; the answer has its unused places too.
#[tactic(auto, using(crate::proofs::Open::waits))]
fn satisfied_for(b: &Block, c: u32, l: [ObjectId; WAIT_AT_ONCE], n: usize, all: bool) -> Satisfied
    requires n_le_wait_at_once { n ≤ def.wait_at_once }
    ensures { result ≡ satisfied_in (dec_block b.now) c l n all }
{
    let list = &l[..n];
    if any_none(list) {
        return unsatisfied();
    }
    let Some(i) = wait::satisfied_at(b, c, all, list) else {
        return unsatisfied();
    };
    Satisfied {
        objects: l,
        index: Some(i),
    }
}

#[tactic(auto, using(crate::proofs::Open::waits))]
fn satisfied_by(c: u32, b: &Block, handles: &[u8], all: bool, tick: Ticks) -> Satisfied
    ensures { result ≡ def.satisfied_by (Some c) (dec_block b.now) (words handles.now) all tick.0 }
{
    let n = handles.len() / 4;
    if WAIT_AT_ONCE < n {
        return unsatisfied();
    }
    if due::timer_due(b, tick) {
        return unsatisfied();
    }
    satisfied_for(b, c, open_list(b, handles), n, all)
}

// The handles, four bytes each.
pub fn satisfied_now(b: &Block, handles: &[u8], all: bool, tick: Ticks) -> Satisfied
    ensures { result ≡ def.satisfied_now (dec_block b.now) (words handles.now) all tick.0 }
{
    let Some(c) = read::current(b) else {
        return unsatisfied();
    };
    satisfied_by(c, b, handles, all, tick)
}
