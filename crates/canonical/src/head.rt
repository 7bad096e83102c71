// The head.
ghost use Rattle.std.specs.Prelude.{◌≡◌, take};
ghost use Rattle.codec.specs.Bytes.{same};
ghost use Rattle.block.specs.Block.{head_words, enc_head, dec_block};
ghost use Rattle.canonical.specs.Parts.{option?};
ghost use Rattle.canonical.specs.Kinds.{tick?};

use block::Block;

// A flag, and a value that is 0 if there is none.
#[tactic(auto, using(crate::proofs::Tests::tests), unfolding(codec::specs::Bytes::same))]
pub fn same_option(flag: u32, value: u64) -> bool
    ensures word { result ≡ option? flag value }
    ensures tick { result ≡ tick? flag value }
{
    match flag {
        0 => value == 0,
        1 => true,
        _ => false,
    }
}

// The other words say themselves, but the last three and all that is spare, which are zero.
#[tactic(auto, using(crate::proofs::Tests::heads))]
pub fn head_same(b: &Block) -> bool
    ensures { result ≡ same (take 128 b.now) (enc_head (head_words (dec_block b.now))) }
{
    same_option(codec::get32(b, 8), codec::get32(b, 12) as u64)
        && codec::get32(b, 24) < 2
        && codec::get32(b, 28) < 2
        && codec::zero_words(b, 52, 19)
}
