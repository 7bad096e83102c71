// The objects that the kernel keeps for threads and for the process (mod.rs).
use crate::store;
use types::object::ObjectStore;
use units::ObjectId;

// The object that a handle names, 0 if none, and the store afterwards.
#[derive(Clone, Copy)]
pub struct Resolved {
    pub object: ObjectId,
    pub store: ObjectStore,
}
