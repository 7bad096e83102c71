// The state in a block of 16,384 bytes, as docs/STATE.md lays it out.
#![tactic(auto)]

pub mod context;
pub mod record;
pub mod slot;
pub mod table;
pub mod thread;

ghost use Rattle.std.specs.Prelude.{◌≡◌, length};
ghost use Rattle.block.specs.Block.{head_words, head_at, enc_head, enc_block};

use codec::Four;
use types::kernel::Kernel;

// The state as the host lends it. That it is sound stays a clause: between the steps of a call it is not.
pub type Block = [u8; 16384];

// The words of the head as they lie in the block, in its order: flags are 0 or 1, the current thread is a flag and a
// number, and a handle or an object number is a bare word.
#[derive(Clone, Copy)]
pub struct Head {
    pub status_word: u32,
    pub thread_count: u32,
    pub current_flag: u32,
    pub current_value: u32,
    pub next_tls_slot: u32,
    pub next_guest_id: u32,
    pub all_blocked: u32,
    pub relief: u32,
    pub free: u32,
    pub free_waiter: u32,
    pub handle_count: u32,
    pub next_handle: u32,
    pub process_object: u32,
    pub spare: [u32; 3],
}

pub fn head_words(k: Kernel) -> Head
    ensures { result ≡ head_words k }
{
    Head {
        status_word: k.status_word,
        thread_count: k.thread_count,
        current_flag: types::thread::option_flag(k.current_thread),
        current_value: types::thread::option_value(k.current_thread),
        next_tls_slot: k.next_tls_slot,
        next_guest_id: k.next_guest_id,
        all_blocked: k.all_blocked as u32,
        relief: k.relief as u32,
        free: k.objects.free,
        free_waiter: k.objects.free_waiter,
        handle_count: k.handles.count,
        next_handle: k.handles.next.0,
        process_object: k.objects.process_object.0,
        spare: [0, 0, 0],
    }
}

pub fn put_head(b: &mut [u8], h: Head)
    requires { length b.old ≡ 128 }
    ensures { b.new ≡ enc_head h }
{
    let first = Four(
        h.status_word,
        h.thread_count,
        h.current_flag,
        h.current_value,
    );
    let second = Four(h.next_tls_slot, h.next_guest_id, h.all_blocked, h.relief);
    let third = Four(h.free, h.free_waiter, h.handle_count, h.next_handle);
    let last = Four(h.process_object, h.spare[0], h.spare[1], h.spare[2]);
    codec::put_four(b, 0, first);
    codec::put_four(b, 16, second);
    codec::put_four(b, 32, third);
    codec::put_four(b, 48, last);
    codec::put_zeros(b, 64, 64);
}

// The state over all of a block. Every table is taken out before the first write: the compiler cannot tell that k lies
// outside b, and would otherwise copy the tables twice.
pub fn encode(b: &mut Block, k: Kernel)
    ensures { b.new ≡ enc_block k }
{
    let head = head_words(k);
    let threads = k.threads;
    let slots = k.objects.slots;
    let entries = k.handles.entries;
    let waiters = k.objects.waiters;
    let ids = k.objects.thread_objects;
    put_head(&mut b[0..128], head);
    record::write_all(b, 128, &threads);
    record::write_all(b, 5248, &slots);
    record::write_all(b, 10368, &entries);
    record::write_all(b, 12416, &waiters);
    record::write_all(b, 13184, &ids);
    codec::put_zeros(b, 13312, 3072);
}

pub fn get_head(b: &Block) -> Head
    ensures { result ≡ head_at b.now }
{
    Head {
        status_word: codec::get32(b, 0),
        thread_count: codec::get32(b, 4),
        current_flag: codec::get32(b, 8),
        current_value: codec::get32(b, 12),
        next_tls_slot: codec::get32(b, 16),
        next_guest_id: codec::get32(b, 20),
        all_blocked: codec::get32(b, 24),
        relief: codec::get32(b, 28),
        free: codec::get32(b, 32),
        free_waiter: codec::get32(b, 36),
        handle_count: codec::get32(b, 40),
        next_handle: codec::get32(b, 44),
        process_object: codec::get32(b, 48),
        spare: [
            codec::get32(b, 52),
            codec::get32(b, 56),
            codec::get32(b, 60),
        ],
    }
}
