// Collect: the current thread's recorded result of a wait and the call that it was for are handed out and cleared.
ghost use Rattle.std.specs.Prelude.{◌≡◌, true, length, None};
ghost use Rattle.block.specs.Block.{dec_block};
ghost use Rattle.sound.specs.View.{thread_at};
ghost use Rattle.sound.specs.Question.{sound?};
ghost use Rattle.thread.specs.Thread.{with_result};
ghost use Rattle.svc.specs.Collect as def;
ghost use Rattle.rows.specs.Rows.{thread_put};
ghost use Rattle.rows.specs.Holds.{Holds};

use block::Block;
use rows::{read, write};
use types::thread::{WaitResult, WaitSyscall};

// A number past the places names no thread. `syscall_at` reads the other field: no function gives the thread itself, since
// the definitions' thread of such a number has an empty list, which no value has.
fn result_at(block: &Block, c: u32) -> Option<WaitResult>
    ensures { result ≡ (thread_at (dec_block block.now).threads c).wait_result }
{
    if 32 <= c {
        return None;
    }
    let t = read::thread_at(block, c);
    t.wait_result
}

fn result_as(current: Option<u32>, block: &Block) -> Option<WaitResult>
    ensures { result ≡ def.result_as current (dec_block block.now) }
{
    result_at(block, current?)
}

#[tactic(auto, unfolding(svc::specs::Collect::collected_result))]
pub fn collected_result(block: &Block) -> Option<WaitResult>
    ensures { result ≡ def.collected_result (dec_block block.now) }
{
    let current = read::current(block);
    result_as(current, block)
}

fn syscall_at(block: &Block, c: u32) -> Option<WaitSyscall>
    ensures { result ≡ (thread_at (dec_block block.now).threads c).wait_syscall }
{
    if 32 <= c {
        return None;
    }
    let t = read::thread_at(block, c);
    t.wait_syscall
}

fn syscall_as(current: Option<u32>, block: &Block) -> Option<WaitSyscall>
    ensures { result ≡ def.syscall_as current (dec_block block.now) }
{
    syscall_at(block, current?)
}

#[tactic(auto, unfolding(svc::specs::Collect::collected_syscall))]
pub fn collected_syscall(block: &Block) -> Option<WaitSyscall>
    ensures { result ≡ def.collected_syscall (dec_block block.now) }
{
    let current = read::current(block);
    syscall_as(current, block)
}

// `change` of `threads` does this to any number of a thread, with a closure: here it is one change, whose contract is an
// equation.
fn clear_at(block: &mut Block, c: u32)
    ensures { block.new ≡ thread_put block.old c (with_result (thread_at (dec_block block.old).threads c) None None) }
{
    if 32 <= c {
        return;
    }
    let t = read::thread_at(block, c);
    write::put_thread(block, c, thread::thread::with_result(t, None, None));
}

fn collect_as(current: Option<u32>, block: &mut Block)
    requires block_value { sound? block.old ≡ true }
    ensures { Holds block.new (def.collect_as current (dec_block block.old)) }
{
    match current {
        None => {}
        Some(c) => clear_at(block, c),
    }
}

#[tactic(auto, unfolding(svc::specs::Collect::collect))]
pub fn collect(block: &mut Block)
    requires block_value { sound? block.old ≡ true }
    ensures { Holds block.new (def.collect (dec_block block.old)) }
{
    let current = read::current(block);
    collect_as(current, block);
}
