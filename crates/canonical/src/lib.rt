// Whether a block is the encoding of what it decodes to: the first part of question 2, asked of the words of the block.
// Handle entries, arbiter records and kept objects are not looked at: any words are the encoding of what they say.
#![tactic(auto, using(crate::proofs::Tests::tests))]

pub mod head;
pub mod row;
pub mod slot;
pub mod thread;

ghost use Rattle.std.specs.Prelude.{◌≡◌};
ghost use Rattle.codec.specs.Bytes.{same};
ghost use Rattle.block.specs.Block.{enc_block, dec_block};

use block::Block;
use types::object::Slot;
use types::thread::Thread;

#[tactic(auto, using(crate::proofs::Tests::blocks))]
pub fn canonical(b: &Block) -> bool
    ensures { result ≡ same b.now (enc_block (dec_block b.now)) }
{
    head::head_same(b)
        && row::rows_same::<Thread>(b, 128, 32)
        && row::rows_same::<Slot>(b, 5248, 128)
        && codec::zero_words(b, 13312, 768)
}
