// The handle table.
ghost use Rattle.std.specs.Prelude.{◌≡◌, true, ◌<◌, ◌≤◌, get_or, replicate};
ghost use Rattle.laws.specs.Tally.{bump, tally};
ghost use Rattle.block.specs.Tables.{entries_in};
ghost use Rattle.tally.specs.Lists.{handle_names};
ghost use Rattle.sound.specs.Handles.{rising?};
ghost use Rattle.question.specs.Linear.{entry?};

use block::Block;
use types::object::HandleEntry;
use units::{Handle, ObjectId};

// A handle from low on, of an object number.
fn entry_ok(low: u64, e: HandleEntry) -> bool
    ensures { result ≡ entry? low e }
{
    low <= u64::from(e.handle.0) && tally::place::is_slot(e.object)
}

// One more for o, where no count is high.
fn count_at(c: &mut [u32; 129], o: ObjectId)
    requires o_bound { o.0 ≤ 128 }
    requires o_bound_2 { get_or c.old o.0 0 < 100000 }
    ensures { c.new ≡ bump 129 c.old o.0 }
{
    c[o.0 as usize] += 1;
}

// count handles in rising order from 0x10000, the last below next, each of an object number, and zeros; one more in c
// for the object of each. If not, c is left open: the block is refused then, and c is not read.
pub fn handles_ok(b: &Block, c: &mut [u32; 129], count: u32, next: Handle) -> bool
    requires c_value { c.old ≡ replicate 129 0 }
    ensures value { result ≡ rising? count 0x10000 (entries_in b.now) next.0 }
    ensures c_after { result ≡ true → c.new ≡ tally 129 c.old (handle_names (entries_in b.now)) }
{
    if 256 < count {
        return false;
    }
    let n = count as usize;
    let mut low: u64 = 0x10000;
    for i in 0..n {
        let e = block::record::entry_at(b, i);
        if !entry_ok(low, e) {
            return false;
        }
        count_at(c, e.object);
        low = u64::from(e.handle.0) + 1;
    }
    low <= u64::from(next.0) && codec::zero_words(b, 10368 + n * 8, 512 - n * 2)
}
