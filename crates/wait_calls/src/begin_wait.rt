// The current thread begins to wait on a list of objects, which it holds while it waits.
ghost use Rattle.std.specs.Prelude.{◌≡◌, true, Some};
ghost use Rattle.block.specs.Block.{enc_block, dec_block};
ghost use Rattle.sound.specs.View.{ids};
ghost use Rattle.sound.specs.Question.{sound?};
ghost use Rattle.object.specs.Store.{add_refs};
ghost use Rattle.thread.specs.Thread.{with_result};
ghost use Rattle.svc.specs.Call.{with_objects};
ghost use Rattle.rows.specs.Holds.{Holds};
ghost use Rattle.svc.specs.Waits as def;
ghost use Rattle.wait_calls.specs.Waits.{wait_on_in};

use block::Block;
use object::store;
use rows::{read, write};
use types::list;
use types::thread::{Thread, WAIT_LIST, WaitSyscall};
use units::{Nanos, ObjectId, Ticks};

// What a thread asks to wait for: the first of the list's objects, all or any of them, and how long.
#[derive(Clone, Copy)]
pub struct WaitFor {
    pub thread: u32,
    pub list: [ObjectId; WAIT_LIST],
    pub count: u32,
    pub all: bool,
    pub timeout: Nanos,
}

// A negative time waits for good. `park_time` of `arbiter` asks first whether its kind has a time-out at all.
fn wait_time(nanos: Nanos) -> Option<Ticks>
    ensures { result ≡ def.wait_time nanos.0 }
{
    if nanos.is_negative() {
        return None;
    }
    Some(units::nanos_to_ticks(nanos))
}

fn with_call(t: Thread, call: Option<WaitSyscall>) -> Thread
    ensures { result ≡ with_result t t.wait_result call }
{
    thread::thread::with_result(t, t.wait_result, call)
}

// One holder more for each. An object may be listed twice, so each slot is read after the last write.
fn hold_list(block: &mut Block, list: &[ObjectId])
    requires block_value { sound? block.old ≡ true }
    ensures { Holds block.new (with_objects (dec_block block.old)
        (add_refs (dec_block block.old).objects (ids list.now))) }
{
    for o in list {
        let x = read::slot_at(block, *o);
        write::put_slot(block, *o, store::held(x));
    }
}

// The call is noted for its result.
pub fn begin_wait(block: &mut Block, w: WaitFor, tick: Ticks, call: Option<WaitSyscall>)
    requires block_value { sound? block.old ≡ true }
    requires current_thread_value { (dec_block block.old).current_thread ≡ Some w.thread }
    ensures { block.new ≡ enc_block
        (wait_on_in (dec_block block.old) w.thread w.list w.count w.all w.timeout.0 tick.0 call).kernel }
{
    let t = read::thread_at(block, w.thread);
    let wake = begin::wake_tick(wait_time(w.timeout), tick);
    let waiting = begin::waiting(t, w.list, w.count, w.all, wake);
    let noted = with_call(waiting, call);
    hold_list(block, list::first(&w.list, w.count));
    write::put_thread(block, w.thread, noted);
}
