// Which slot of a store a number names.
ghost use Rattle.std.specs.Prelude.{◌≡◌, ◌<◌};
ghost use Rattle.tally.specs.Place.{is_slot, slot_index};

use units::ObjectId;

// A number that some slot has.
pub fn is_slot(o: ObjectId) -> bool
    ensures { result ≡ is_slot o.0 }
{
    (1..=128).contains(&o.0)
}

// An index to look at for the object o: its slot, or the first one if it has none.
pub fn slot_index(o: ObjectId) -> usize
    ensures value { result ≡ slot_index o.0 }
    ensures upper_bound { result < 128 }
{
    if is_slot(o) { (o.0 - 1) as usize } else { 0 }
}
