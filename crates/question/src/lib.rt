// Question 2 on a block that is the encoding of what it decodes to: whether the state is sound. The block is read
// where it lies; the slots are read once, into columns of numbers.
#![tactic(auto, using(crate::proofs::Tests::tests))]

pub mod chains;
pub mod handles;
pub mod names;
pub mod objects;
pub mod records;
pub mod threads;
pub mod tls;

ghost use Rattle.std.specs.Prelude.{◌≡◌, true, replicate};
ghost use Rattle.laws.specs.Tally.{bump, tally, tally_all};
ghost use Rattle.block.specs.Block.{dec_block};
ghost use Rattle.block.specs.Tables.{threads_in, entries_in, kept_in};
ghost use Rattle.sound.specs.Sound.{state?};
ghost use Rattle.tally.specs.Lists.{names, handle_names, list_names};
ghost use Rattle.question.specs.LinearObjects.{tables?, store?};

use crate::objects::Columns;
use block::Block;
use units::{Handle, ObjectId};

// Threads, TLS slots and handles; one more in c for each object that a handle or a list names. If they are not sound,
// c is left open: the block is refused then, and c is not read.
fn tables_ok(b: &Block, c: &mut [u32; 129]) -> bool
    requires c_value { c.old ≡ replicate 129 0 }
    ensures value { result ≡ tables? (dec_block b.now) }
    ensures c_after { result ≡ true → c.new ≡ tally_all 129 (tally 129 c.old (handle_names (entries_in b.now))) (list_names (threads_in b.now)) }
{
    let head = block::get_head(b);
    let current = types::thread::option_of(head.current_flag, head.current_value);
    if !handles::handles_ok(b, c, head.handle_count, Handle(head.next_handle)) {
        return false;
    }
    names::tally_lists(c, b);
    threads::threads_ok(head.thread_count, current, b) && tls::tls_ok(b, head.next_tls_slot)
}

// Objects, what they name, and records of arbiters, where c has the names of handles and of lists. c afterwards is
// left open, since it is not read any more.
fn store_ok(b: &Block, c: &mut [u32; 129]) -> bool
    ensures { result ≡ store? (dec_block b.now) (bump 129 (tally 129 c.old (names (kept_in b.now))) (dec_block b.now).objects.process_object.0) }
{
    let head = block::get_head(b);
    let n = head.thread_count;
    let process = ObjectId(head.process_object);
    names::tally_kept(c, b);
    tally::bump_at(c, process.0);
    let mut s = Columns {
        kinds: [0; 128],
        refs: [0; 128],
        nexts: [0; 128],
        heads: [0; 128],
        named: [0; 128],
    };
    let d = objects::dead_marks(b);
    let contents = objects::read_columns(b, n, &d, &mut s);
    contents
        && objects::objects_ok(&s, head.free, c, b, process)
        && records::records_ok(n, &s.heads, b, head.free_waiter)
}

pub fn state_ok(b: &Block) -> bool
    ensures { result ≡ state? (dec_block b.now) }
{
    let mut c = [0u32; 129];
    tables_ok(b, &mut c) && store_ok(b, &mut c)
}
