// The guest window: words that a call reads, and the one that a call writes.
ghost use Rattle.std.specs.Prelude.{◌≡◌, true, false, ◌+◌, ◌*◌, ◌<◌, ◌≤◌, length, take};
ghost use Rattle.codec.specs.Bytes.{num};
ghost use Rattle.codec.specs.Layout.{dec_all};
ghost use Rattle.types.specs.Thread.{wait_list};
ghost use Rattle.svc.specs.Dispatch.{words_read, too_many?, outside?};
ghost use Rattle.guest.specs.Word.{word_fits};
ghost use Rattle.lent.specs.Guest as def;

use svc::Registers;
use types::thread::WAIT_LIST;

// Question 1 of the window.
#[tactic(auto, using(laws::specs::Logic::and_yes, laws::specs::Logic::and_no))]
pub fn window_ok(base: u32, window: &[u8]) -> bool
    ensures { result ≡ def.window_ok base window.now }
{
    let n = window.len() as u64;
    n <= 65536 && n % 4 == 0 && base as u64 + n <= 4294967296
}

// The places past n are left open: the calls read n words.
fn words_at(window: &[u8], at: usize, n: usize) -> [u32; WAIT_LIST]
    requires n_le_wait_list { n ≤ wait_list }
    requires n_in_bounds { at + n * 4 ≤ length window.now }
    ensures { take n result ≡ dec_all num 4 n window.now at }
{
    let mut l = [0u32; WAIT_LIST];
    for i in 0..n {
        l[i] = codec::get32(window, at + i * 4);
    }
    l
}

// The n words that the call reads, which questions 5 and 6 have found in the window. The places past n are left open,
// as by `words_at`.
pub fn words_in(window: &[u8], base: u32, number: u32, r: Registers, n: u32) -> [u32; WAIT_LIST]
    requires n_value { n ≡ words_read number r }
    requires r_value { too_many? number r ≡ false }
    requires r_value_2 { outside? base (length window.now) number r ≡ false }
    ensures { take n result ≡ def.words_in base window.now number r }
{
    if n == 0 {
        return [0u32; WAIT_LIST];
    }
    words_at(window, (r.r1 - base) as usize, n as usize)
}

// The word that 0x22 counts down.
pub fn put_word(window: &mut [u8], base: u32, r: Registers, w: Option<u32>)
    requires { word_fits base (length window.old) r.r1 w ≡ true }
    ensures { window.new ≡ def.window_after base window.old r w }
{
    if let Some(v) = w {
        codec::put32(window, (r.r1 - base) as usize, v);
    }
}
