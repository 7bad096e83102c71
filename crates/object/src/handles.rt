// The handle table (HandleTable of object.rs).
ghost use Rattle.std.specs.Prelude.{◌≡◌, ◌+◌, ltb};
ghost use Rattle.laws.specs.Logic.{pick};

use types::object::{HandleTable, ObjectStore};

// The table and the store after an operation on both.
#[derive(Clone, Copy)]
pub struct Both {
    pub table: HandleTable,
    pub store: ObjectStore,
}

pub fn more_below(x: u32, n: u32) -> u32
    ensures { result ≡ pick (ltb x n) (x + 1) x }
{
    if x < n { x + 1 } else { x }
}
