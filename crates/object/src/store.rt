// Objects come, are counted and go (ObjectStore of object.rs).
ghost use Rattle.std.specs.Prelude.{◌≡◌};
ghost use Rattle.object.specs.Held as one;

use types::object::Slot;

// One holder more; a dead slot is not counted.
pub fn held(x: Slot) -> Slot
    ensures { result ≡ one.held x }
{
    if types::object::is_free(x.object) {
        return x;
    }
    Slot {
        refcount: x.refcount.saturating_add(1),
        ..x
    }
}
