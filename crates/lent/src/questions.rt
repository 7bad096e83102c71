// What is asked before an operation and after its work: questions 2, 7 and 8.
ghost use Rattle.std.specs.Prelude.{◌≡◌, ltb, length};
ghost use Rattle.sound.specs.Question.{sound?};

use block::Block;
use units::Handle;

// Question 2: the block is the encoding of what it decodes to, and that is a sound state.
#[tactic(auto, using(crate::proofs::Cases::questions))]
pub fn block_ok(b: &Block) -> bool
    ensures { result ≡ sound? b.now }
{
    canonical::canonical(b) && question::state_ok(b)
}

// The next handle is past the last that question 8 allows.
pub fn out_of_handles(next: Handle) -> bool
    ensures { result ≡ ltb 0xFFFF8000 next.0 }
{
    0xFFFF8000 < next.0
}
