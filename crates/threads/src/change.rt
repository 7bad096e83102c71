// A thread changed where it lies.
ghost use Rattle.std.specs.Prelude.{◌≡◌, ◌<◌};
ghost use Rattle.block.specs.Block.{dec_block};
ghost use Rattle.sound.specs.View.{thread_at};
ghost use Rattle.types.specs.declared.thread.Thread.{Thread};
ghost use Rattle.rows.specs.Rows.{thread_put};

use block::Block;
use rows::{read, write};
use types::thread::Thread;

// Thread t as f leaves it. A number that no thread has changes nothing.
pub fn change<F: FnOnce(Thread) -> Thread>(block: &mut Block, t: u32, f: F)
    requires { F.IsAlwaysCallable f }
    ensures { (x : Thread) × ((t < 32 → F.post f (thread_at (dec_block block.old).threads t) x)
        × (block.new ≡ thread_put block.old t x)) }
{
    if t < 32 {
        let x = f(read::thread_at(block, t));
        write::put_thread(block, t, x);
    }
}
