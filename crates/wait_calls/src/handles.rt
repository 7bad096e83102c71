// The objects that a list of handles names.
ghost use Rattle.std.specs.Prelude.{◌≡◌, true, false, not, map, length, take};
ghost use Rattle.types.specs.Thread.{wait_list};
ghost use Rattle.block.specs.Block.{dec_block};
ghost use Rattle.sound.specs.Question.{sound?};
ghost use Rattle.kernel.specs.NextEvent.{contains};
ghost use Rattle.pass.specs.Asks.{padded, open_object};
ghost use Rattle.svc.specs.Waits.{resolve_store};
ghost use Rattle.lent.specs.Operations.{out_of_handles?};
ghost use Rattle.wait_calls.specs.Opens.{Opens};

use asked::open;
use block::Block;
use types::list;
use types::thread::WAIT_LIST;
use units::{Handle, ObjectId};

// The objects of a list of handles, and whether every handle names one. No Option: where one is unknown the objects
// of the others are still looked at, by `may_find`.
#[derive(Clone, Copy)]
pub struct Looked {
    pub objects: [ObjectId; WAIT_LIST],
    pub known: bool,
}

// The first n handles as they are, an array and a count as in `dispatch`; a pseudo-handle counts as unknown, since its
// object may have to be made.
pub fn look_up(block: &Block, words: [u32; WAIT_LIST], n: u32) -> Looked
    ensures objects_value { result.objects ≡ padded wait_list (map (open_object (dec_block block.now)) (take n words)) }
    ensures known_value { result.known ≡ not (contains (map (open_object (dec_block block.now)) (take n words)) 0) }
    ensures words_len { length words ≡ wait_list }
{
    let mut l = [ObjectId(0); WAIT_LIST];
    let mut unknown = false;
    let handles = list::first(&words, n);
    for i in 0..handles.len() {
        let o = open::open_object(block, Handle(handles[i]));
        unknown = unknown || o.0 == 0;
        l[i] = o;
    }
    Looked {
        objects: l,
        known: !unknown,
    }
}

// The objects of the first n handles, opened in the block in order; none, up to the first that is unknown, if one is.
// There is a slot for each object that is made, so none is refused.
pub fn open_list(
    block: &mut Block,
    words: [u32; WAIT_LIST],
    n: u32,
) -> Option<[ObjectId; WAIT_LIST]>
    requires block_value { sound? block.old ≡ true }
    requires block_value_2 { out_of_handles? (dec_block block.old) ≡ false }
    requires words_value { (resolve_store (dec_block block.old).current_thread (dec_block block.old).handles
        (dec_block block.old).objects (take n words)).full ≡ false }
    ensures { Opens (dec_block block.old) (take n words) block.new result }
{
    let mut l = [ObjectId(0); WAIT_LIST];
    let handles = list::first(&words, n);
    for i in 0..handles.len() {
        let o = objects::open::resolve(block, Handle(handles[i])).unwrap_or(ObjectId(0));
        if o.0 == 0 {
            return None;
        }
        l[i] = o;
    }
    Some(l)
}
