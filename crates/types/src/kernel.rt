// The kernel's state (mod.rs).
use crate::object::{HandleTable, ObjectStore};
use crate::thread::Thread;

#[derive(Clone, Copy)]
pub struct Kernel {
    // The status word that a new thread starts with.
    pub status_word: u32,
    pub objects: ObjectStore,
    pub handles: HandleTable,
    // The first thread_count places are in use; the rest are all zero, so Dead.
    pub threads: [Thread; 32],
    pub thread_count: u32,
    pub current_thread: Option<u32>,
    pub next_tls_slot: u32,
    pub next_guest_id: u32,
    pub all_blocked: bool,
    // Flips while a thread starves the ones below it.
    pub relief: bool,
    // Findings, as the store's.
    pub full: bool,
    pub overflow: bool,
}
