// `exit_thread` (svc.rs), in the block.
ghost use Rattle.std.specs.Prelude.{◌≡◌, true, length};
ghost use Rattle.block.specs.Block.{dec_block};
ghost use Rattle.sound.specs.Question.{sound?};
ghost use Rattle.svc.specs.Threads as def;
ghost use Rattle.outcome.specs.Outcome.{outcome, left};

use block::Block;
use outcome::Outcome;
use rows::read;
use types::refusal::Refusal;

// The current thread ends, and no register is written.
pub fn exit_thread(block: &mut Block) -> Result<Outcome, Refusal>
    requires block_value { sound? block.old ≡ true }
    ensures value { result ≡ outcome (def.exit_thread (dec_block block.old)) }
    ensures block_after { block.new ≡ left (def.exit_thread (dec_block block.old)) block.old }
{
    outcome::room(false, outcome::out_of_handles(block))?;
    if let Some(c) = read::current(block) {
        ending::put_ended(block, c);
    }
    Ok(outcome::silent())
}
