// Handles that are looked up and nothing else.
ghost use Rattle.std.specs.Prelude.{◌≡◌};
ghost use Rattle.block.specs.Block.{dec_block};
ghost use Rattle.pass.specs.Asks.{open_object};

use block::Block;
use rows::read;
use units::{Handle, ObjectId};

// The object that a handle names, 0 if it names none; a pseudo-handle counts as none.
#[tactic(auto, using(laws::specs::Logic::pick_yes, laws::specs::Logic::pick_no))]
pub fn open_object(b: &Block, h: Handle) -> ObjectId
    ensures { result.0 ≡ open_object (dec_block b.now) h.0 }
{
    if svc::read::is_pseudo(h) {
        return ObjectId(0);
    }
    read::resolve(b, h)
}
