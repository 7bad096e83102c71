// The columns of the table of records.
ghost use Rattle.std.specs.Prelude.{◌≡◌, length};
ghost use Rattle.sound.specs.View.{waiter_nexts, waiter_threads, waiter_addresses};

use types::object::Waiter;

// The next record of each.
pub fn nexts_of(l: [Waiter; 64]) -> [u32; 64]
    ensures value { result ≡ waiter_nexts l }
    ensures l_len { length l ≡ 64 }
{
    let mut r = [0u32; 64];
    for i in 0..64 {
        r[i] = l[i].next;
    }
    r
}

// The thread of each.
pub fn threads_of(l: [Waiter; 64]) -> [u32; 64]
    ensures { result ≡ waiter_threads l }
{
    let mut r = [0u32; 64];
    for i in 0..64 {
        r[i] = l[i].thread;
    }
    r
}

// The address of each.
pub fn addresses_of(l: [Waiter; 64]) -> [u32; 64]
    ensures { result ≡ waiter_addresses l }
{
    let mut r = [0u32; 64];
    for i in 0..64 {
        r[i] = l[i].address;
    }
    r
}
