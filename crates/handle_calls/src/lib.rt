// Guest calls on handles, in the block: `close_handle` and `duplicate_handle`, and `create_address_arbiter` (svc.rs).
#![tactic(auto)]

pub mod close;
pub mod duplicate;

ghost use Rattle.std.specs.Prelude.{◌≡◌, true, length};
ghost use Rattle.block.specs.Block.{dec_block};
ghost use Rattle.sound.specs.Question.{sound?};
ghost use Rattle.svc.specs.Arbiter as def;
ghost use Rattle.outcome.specs.Outcome.{outcome, left};

use block::Block;
use objects::create;
use outcome::Outcome;
use types::object::KObject;
use types::refusal::Refusal;
use types::sync::AddressArbiter;

#[tactic(auto, unfolding(svc::specs::Arbiter::create_address_arbiter))]
pub fn create_address_arbiter(block: &mut Block) -> Result<Outcome, Refusal>
    requires block_value { sound? block.old ≡ true }
    ensures value { result ≡ outcome (def.create_address_arbiter (dec_block block.old)) }
    ensures block_after { block.new ≡ left (def.create_address_arbiter (dec_block block.old)) block.old }
{
    create::create_object(
        block,
        KObject::AddressArbiter(AddressArbiter { waiters: 0 }),
    )
}
