// Records one after the other.
ghost use Rattle.std.specs.Prelude.{◌≡◌, ◌+◌, ◌*◌, ◌≤◌, length};
ghost use Rattle.codec.specs.Bytes.{same};
ghost use Rattle.canonical.specs.Rows.{rows?};

use block::record::Record;

// A record whose bytes may not be the encoding of what they say.
pub trait Canonical: Record {
    fn canonical(s: &[u8]) -> bool
        requires { length s.now ≡ Self.SIZE }
        ensures { result ≡ same s.now (Self.enc (Self.dec s.now)) };
}

// Whether n records from at on are the encoding of what they say.
#[tactic(auto, using(crate::proofs::Tests::rows))]
pub fn rows_same<R: Canonical>(b: &[u8], at: usize, n: usize) -> bool
    requires { at + n * R.SIZE ≤ length b.now }
    ensures { result ≡ rows? R.enc R.dec R.SIZE n b.now at }
{
    for i in 0..n {
        let from = at + i * R::SIZE;
        if !R::canonical(&b[from..from + R::SIZE]) {
            return false;
        }
    }
    true
}
