// Little-endian numbers in lent bytes: reading and writing words, groups of words and arrays of words.
#![tactic(auto)]

ghost use Rattle.std.specs.Prelude.{◌≡◌, ◌+◌, ◌*◌, ◌≤◌, length, replicate, take, drop};
ghost use Rattle.codec.specs.Bytes.{le, over, bytes, same};
ghost use Rattle.codec.specs.Layout.{enc_all};
ghost use Rattle.codec.specs.Groups.{two_at, two_bytes, four_at, four_bytes};

// Two words, one after the other. Unnamed, since what each of them says is for the record that has them.
#[derive(Clone, Copy, PartialEq, Eq)]
pub struct Two(pub u32, pub u32);

// Four words, one after the other; unnamed as those of Two are.
#[derive(Clone, Copy, PartialEq, Eq)]
pub struct Four(pub u32, pub u32, pub u32, pub u32);

// The number in the four bytes from at.
pub fn get32(s: &[u8], at: usize) -> u32
    requires { at + 4 ≤ length s.now }
    ensures { result ≡ le 4 s.now at }
{
    u32::from_le_bytes([s[at], s[at + 1], s[at + 2], s[at + 3]])
}

// The number in the eight bytes from at.
pub fn get64(s: &[u8], at: usize) -> u64
    requires { at + 8 ≤ length s.now }
    ensures { result ≡ le 8 s.now at }
{
    u64::from_le_bytes([
        s[at],
        s[at + 1],
        s[at + 2],
        s[at + 3],
        s[at + 4],
        s[at + 5],
        s[at + 6],
        s[at + 7],
    ])
}

// v into the four bytes from at.
#[tactic(auto, unfolding(crate::specs::Bytes::bytes))]
pub fn put32(b: &mut [u8], at: usize, v: u32)
    requires { at + 4 ≤ length b.old }
    ensures { b.new ≡ over b.old at (bytes 4 v) }
{
    b[at..at + 4].copy_from_slice(&v.to_le_bytes());
}

// v into the eight bytes from at. Beside `put32`, as `get64` beside `get32`: one over the type of the number would need
// a trait with its bytes and their law for two types, and be longer than both.
#[tactic(auto, unfolding(crate::specs::Bytes::bytes))]
pub fn put64(b: &mut [u8], at: usize, v: u64)
    requires { at + 8 ≤ length b.old }
    ensures { b.new ≡ over b.old at (bytes 8 v) }
{
    b[at..at + 8].copy_from_slice(&v.to_le_bytes());
}

// The two words from at.
pub fn get_two(s: &[u8], at: usize) -> Two
    requires { at + 8 ≤ length s.now }
    ensures { result ≡ two_at s.now at }
{
    Two(get32(s, at), get32(s, at + 4))
}

// Two words into the eight bytes from at.
pub fn put_two(b: &mut [u8], at: usize, v: Two)
    requires { at + 8 ≤ length b.old }
    ensures { b.new ≡ over b.old at (two_bytes v) }
{
    put32(b, at, v.0);
    put32(b, at + 4, v.1);
}

// The four words from at.
pub fn get_four(s: &[u8], at: usize) -> Four
    requires { at + 16 ≤ length s.now }
    ensures { result ≡ four_at s.now at }
{
    Four(
        get32(s, at),
        get32(s, at + 4),
        get32(s, at + 8),
        get32(s, at + 12),
    )
}

// Four words into the sixteen bytes from at.
pub fn put_four(b: &mut [u8], at: usize, v: Four)
    requires { at + 16 ≤ length b.old }
    ensures { b.new ≡ over b.old at (four_bytes v) }
{
    put_two(b, at, Two(v.0, v.1));
    put_two(b, at + 8, Two(v.2, v.3));
}

// Words over what stands from at.
pub fn put_words<const N: usize>(b: &mut [u8], at: usize, l: &[u32; N])
    requires { at + N * 4 ≤ length b.old }
    ensures { b.new ≡ over b.old at (enc_all (bytes 4) l.now) }
{
    for i in 0..N {
        put32(b, at + i * 4, l[i]);
    }
}

// src over what stands from at.
pub fn copy(b: &mut [u8], at: usize, src: &[u8])
    requires { at + length src.now ≤ length b.old }
    ensures { b.new ≡ over b.old at src.now }
{
    b[at..at + src.len()].copy_from_slice(src);
}

// n zeros over what stands from at.
pub fn put_zeros(b: &mut [u8], at: usize, n: usize)
    requires { at + n ≤ length b.old }
    ensures { b.new ≡ over b.old at (replicate n 0) }
{
    b[at..at + n].fill(0);
}

// Whether the n words from at are all zero. No early end: the compiler then looks at several words at once.
pub fn zero_words(s: &[u8], at: usize, n: usize) -> bool
    requires { at + n * 4 ≤ length s.now }
    ensures { result ≡ same (take (n * 4) (drop at s.now)) (replicate (n * 4) 0) }
{
    let mut alike = true;
    for i in 0..n {
        if get32(s, at + i * 4) != 0 {
            alike = false;
        }
    }
    alike
}
