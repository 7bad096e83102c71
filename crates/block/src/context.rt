// A context as 208 bytes: a row of the bank, or the processor.
ghost use Rattle.std.specs.Prelude.{◌≡◌, ◌*◌, ◌<◌, length};
ghost use Rattle.codec.specs.Bytes.{over};
ghost use Rattle.block.specs.Context.{enc_context};

use codec::Two;
use types::thread::ThreadContext;

// A row for the context of each thread, as the host lends it.
pub type Bank = [u8; 6656];

// The context of the thread that runs, as the host lends it.
pub type Processor = [u8; 208];

pub fn put_context(b: &mut [u8], x: ThreadContext)
    requires { length b.old ≡ 208 }
    ensures b_after { b.new ≡ enc_context x }
    ensures x_len { length (enc_context x) ≡ 208 }
{
    codec::put_words(b, 0, &x.regs);
    codec::put32(b, 64, x.cpsr);
    codec::put_words(b, 68, &x.vfp_regs);
    codec::put_two(b, 196, Two(x.fpscr, x.fpexc));
    codec::put32(b, 204, x.tls_pointer);
}

// A context into thread t's row of the bank.
pub fn put_row(bank: &mut Bank, t: u32, x: ThreadContext)
    requires t_bound { t < 32 }
    ensures { bank.new ≡ over bank.old (t * 208) (enc_context x) }
{
    let from = t as usize * 208;
    put_context(&mut bank[from..from + 208], x);
}
