// What an object holds, changed where it lies.
ghost use Rattle.std.specs.Prelude.{◌≡◌, length};
ghost use Rattle.object.specs.Slots.{with_object};
ghost use Rattle.rows.specs.Rows.{slot_put};

use block::Block;
use rows::write;
use types::object::{KObject, Slot};
use units::ObjectId;

// The slot x of the object o, with v.
pub fn content(block: &mut Block, o: ObjectId, x: Slot, v: KObject)
    ensures { block.new ≡ slot_put block.old o.0 (with_object x v) }
{
    write::put_slot(block, o, Slot { object: v, ..x });
}
