// Records: values that each take the same number of bytes, one after the other, as in the tables of a block.
ghost use Rattle.std.specs.Prelude.{◌≡◌, ◌+◌, ◌*◌, ◌≤◌, ◌<◌, List, ℕ, length, take, drop};
ghost use Rattle.codec.specs.Bytes.{over};
ghost use Rattle.codec.specs.Layout.{enc_all, dec_all};
ghost use Rattle.block.specs.Table.{dec_entry, dec_waiter, dec_id};
ghost use Rattle.block.specs.Thread.{dec_thread};
ghost use Rattle.block.specs.Slot.{dec_slot};

use crate::Block;
use types::object::{HandleEntry, Slot, Waiter};
use types::thread::Thread;
use units::ObjectId;

// What is written as bytes of one number, and read from them.
pub trait Record: Copy + Default {
    ghost SIZE: { ℕ };

    ghost enc: { Self → List ℕ };

    ghost dec: { List ℕ → Self };

    // How many bytes a record takes.
    const SIZE: usize;

    fn get(s: &[u8]) -> Self
        requires { length s.now ≡ SIZE }
        ensures { result ≡ dec s.now };

    fn put(self, b: &mut [u8])
        requires { length b.old ≡ SIZE }
        ensures { b.new ≡ enc self };

    ghost sized: { (x : Self) → length (enc x) ≡ SIZE };
}

// Record i of those from at on, read where it lies: a block is lent, a table by value would be copied.
pub fn read<R: Record>(b: &[u8], at: usize, i: usize) -> R
    requires { at + i * R.SIZE + R.SIZE ≤ length b.now }
    ensures { result ≡ R.dec (take R.SIZE (drop (at + i * R.SIZE) b.now)) }
{
    let from = at + i * R::SIZE;
    R::get(&b[from..from + R::SIZE])
}

// x over record i of those from at on.
pub fn write<R: Record>(b: &mut [u8], at: usize, i: usize, x: R)
    requires { at + i * R.SIZE + R.SIZE ≤ length b.old }
    ensures { b.new ≡ over b.old (at + i * R.SIZE) (R.enc x) }
{
    let from = at + i * R::SIZE;
    x.put(&mut b[from..from + R::SIZE]);
}

// All N records from at on, each over a default value. Not by `array::from_fn`, which copies the table once more, on
// the stack too.
pub fn read_all<R: Record, const N: usize>(b: &[u8], at: usize) -> [R; N]
    requires { at + N * R.SIZE ≤ length b.now }
    ensures { result ≡ dec_all R.dec R.SIZE N b.now at }
{
    let mut l = [R::default(); N];
    for i in 0..N {
        l[i] = read(b, at, i);
    }
    l
}

// Records over what stands from at.
pub fn write_all<R: Record, const N: usize>(b: &mut [u8], at: usize, l: &[R; N])
    requires { at + N * R.SIZE ≤ length b.old }
    ensures b_after { b.new ≡ over b.old at (enc_all R.enc l.now) }
    ensures l_len { length l.now ≡ N }
{
    for (i, x) in l.iter().enumerate() {
        write(b, at, i, *x);
    }
}

// The tables of a block by name. Place and bound are no constants of `Record`: object numbers stand in two tables, the
// kept objects and each thread's list.
pub fn thread_at(b: &Block, i: usize) -> Thread
    requires i_bound { i < 32 }
    ensures { result ≡ dec_thread (take 160 (drop (128 + i * 160) b.now)) }
{
    read(b, 128, i)
}

pub fn slot_at(b: &Block, i: usize) -> Slot
    requires i_bound { i < 128 }
    ensures { result ≡ dec_slot (take 40 (drop (5248 + i * 40) b.now)) }
{
    read(b, 5248, i)
}

pub fn entry_at(b: &Block, i: usize) -> HandleEntry
    requires i_bound { i < 256 }
    ensures { result ≡ dec_entry (take 8 (drop (10368 + i * 8) b.now)) }
{
    read(b, 10368, i)
}

pub fn waiter_at(b: &Block, i: usize) -> Waiter
    requires i_bound { i < 64 }
    ensures { result ≡ dec_waiter (take 12 (drop (12416 + i * 12) b.now)) }
{
    read(b, 12416, i)
}

pub fn kept_at(b: &Block, i: usize) -> ObjectId
    requires i_bound { i < 32 }
    ensures { result ≡ dec_id (take 4 (drop (13184 + i * 4) b.now)) }
{
    read(b, 13184, i)
}
