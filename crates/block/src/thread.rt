// A thread record as 160 bytes.
ghost use Rattle.std.specs.Prelude.{◌≡◌, length};
ghost use Rattle.codec.specs.Bytes.{over};
ghost use Rattle.codec.specs.Layout.{dec_as};
ghost use Rattle.block.specs.Thread.{thread_words, thread_of, thread_w, enc_words, enc_thread, dec_thread, words_list};
ghost use Rattle.block.specs.Sizes.{length-enc_thread};

use crate::record::{self, Record};
use codec::Four;
use types::thread::{Thread, ThreadStatus, WAIT_LIST};
use units::{ObjectId, Ticks};

// A record has 160 bytes: its numbers, from 80 on its list, and spare bytes.
pub const SPARE_AT: usize = 80 + WAIT_LIST * 4;

pub const SPARE_BYTES: usize = 160 - SPARE_AT;

pub const SPARE_WORDS: usize = SPARE_BYTES / 4;

// A thread's fields but its list, as numbers in the order of the block.
#[derive(Clone, Copy, PartialEq, Eq)]
pub struct ThreadWords {
    pub a: Four,
    pub b: Four,
    pub c: Four,
    pub d: Four,
    pub wakeup_at: u64,
    pub running_since: u64,
}

pub fn thread_words(x: Thread) -> ThreadWords
    ensures { result ≡ thread_words x }
{
    ThreadWords {
        a: Four(u32::from(x.status), x.priority, x.entry, x.stack_top),
        b: Four(x.tls, x.processor_id, x.wait_count, x.wait_all as u32),
        c: Four(
            x.waited as u32,
            types::thread::option_flag(x.wakeup_at),
            types::thread::option_flag(x.wait_address),
            types::thread::option_value(x.wait_address),
        ),
        d: Four(
            types::thread::result_number(x.wait_result),
            types::thread::result_index(x.wait_result),
            types::thread::syscall_number(x.wait_syscall),
            x.guest_id,
        ),
        wakeup_at: types::thread::tick_value(x.wakeup_at),
        running_since: x.running_since.0,
    }
}

pub fn thread_of(w: ThreadWords, l: [ObjectId; WAIT_LIST]) -> Thread
    ensures { result ≡ thread_of (words_list w) l }
{
    Thread {
        status: ThreadStatus::from(w.a.0),
        priority: w.a.1,
        entry: w.a.2,
        stack_top: w.a.3,
        tls: w.b.0,
        processor_id: w.b.1,
        wait_objects: l,
        wait_count: w.b.2,
        wait_all: w.b.3 == 1,
        wakeup_at: types::thread::tick_option(w.c.1, w.wakeup_at),
        running_since: Ticks(w.running_since),
        waited: w.c.0 == 1,
        wait_address: types::thread::option_of(w.c.2, w.c.3),
        wait_result: types::thread::result_of(w.d.0, w.d.1),
        wait_syscall: types::thread::syscall_of(w.d.2),
        guest_id: w.d.3,
    }
}

pub fn get_words(s: &[u8]) -> ThreadWords
    requires { length s.now ≡ 160 }
    ensures { words_list result ≡ dec_as thread_w s.now 0 }
{
    ThreadWords {
        a: codec::get_four(s, 0),
        b: codec::get_four(s, 16),
        c: codec::get_four(s, 32),
        d: codec::get_four(s, 48),
        wakeup_at: codec::get64(s, 64),
        running_since: codec::get64(s, 72),
    }
}

fn put_words(b: &mut [u8], w: ThreadWords)
    requires { length b.old ≡ 160 }
    ensures { b.new ≡ over b.old 0 (enc_words w) }
{
    codec::put_four(b, 0, w.a);
    codec::put_four(b, 16, w.b);
    codec::put_four(b, 32, w.c);
    codec::put_four(b, 48, w.d);
    codec::put64(b, 64, w.wakeup_at);
    codec::put64(b, 72, w.running_since);
}

impl Record for Thread {
    ghost SIZE = { 160 };

    ghost enc = { enc_thread };

    ghost dec = { dec_thread };

    const SIZE: usize = 160;

    #[tactic(auto, unfolding(crate::specs::Thread::dec_thread))]
    fn get(s: &[u8]) -> Thread {
        thread_of(get_words(s), record::read_all(s, 80))
    }

    fn put(self, b: &mut [u8]) {
        put_words(b, thread_words(self));
        record::write_all(b, 80, &self.wait_objects);
        codec::put_zeros(b, SPARE_AT, SPARE_BYTES);
    }

    ghost sized = { length-enc_thread };
}
