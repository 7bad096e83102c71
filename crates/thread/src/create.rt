// Making a thread: in the place of an ended one, or in a new one (`forget_thread`, `create_thread`, and the `new` of
// thread.rs).
ghost use Rattle.std.specs.Prelude.{◌≡◌, ◌+◌, leb};
ghost use Rattle.laws.specs.Logic.{pick, ◌or◌};
ghost use Rattle.thread.specs.Thread.{new_thread, status_word, new_context};

use types::thread::{Thread, ThreadContext, ThreadStatus};

// What whoever makes a thread asks for.
#[derive(Clone, Copy)]
pub struct NewThread {
    pub entry: u32,
    pub stack_top: u32,
    pub priority: u32,
    pub processor_id: u32,
}

// A thread that is ready and waits for nothing.
pub fn new_thread(asked: NewThread, tls: u32, guest_id: u32) -> Thread
    ensures { result ≡ new_thread asked.entry asked.stack_top asked.priority asked.processor_id tls guest_id }
{
    Thread {
        status: ThreadStatus::Ready,
        priority: asked.priority,
        entry: asked.entry,
        stack_top: asked.stack_top,
        tls,
        processor_id: asked.processor_id,
        waited: true,
        guest_id,
        ..Thread::default()
    }
}

// The default status word with bit 5, which selects Thumb, as bit 0 of the entry.
fn status_word(word: u32, entry: u32) -> u32
    ensures { result ≡ status_word word entry }
{
    word - word / 32 % 2 * 32 + entry % 2 * 32
}

pub fn new_context(word: u32, entry: u32, stack_top: u32, arg: u32, tls: u32) -> ThreadContext
    ensures { result ≡ new_context word entry stack_top arg tls }
{
    let mut regs = [0u32; 16];
    regs[0] = arg;
    regs[13] = stack_top;
    regs[14] = 0xFFFFFFF0;
    regs[15] = entry - entry % 2;
    ThreadContext {
        regs,
        cpsr: status_word(word, entry),
        vfp_regs: [0u32; 32],
        fpscr: 0,
        fpexc: 0x40000000,
        tls_pointer: tls,
    }
}

#[tactic(auto, using(laws::specs::Logic::or_yes, laws::specs::Logic::or_no))]
pub fn counted(reused: bool, n: u32) -> u32
    ensures { result ≡ pick (reused or leb 32 n) n (n + 1) }
{
    if reused || 32 <= n { n } else { n + 1 }
}
