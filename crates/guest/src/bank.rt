// The row of a thread that a call makes.
ghost use Rattle.std.specs.Prelude.{◌≡◌, ◌<◌, IfSome, length};
ghost use Rattle.block.specs.Block.{dec_block};
ghost use Rattle.guest.specs.Made.{made_by, bank_made};

use block::Block;
use block::context::Bank;
use svc::Registers;

// The place, the TLS slot and the status word of the thread that 0x08 would make.
#[derive(Clone, Copy)]
pub struct Made {
    pub id: u32,
    pub tls: u32,
    pub status_word: u32,
}

// Looked up before the call, which changes the block.
#[tactic(auto, using(laws::specs::Logic::pick_yes, laws::specs::Logic::pick_no), unfolding(block::specs::Block::dec_block, codec::specs::Layout::dec_as))]
pub fn made_by(block: &Block, number: u32) -> Option<Made>
    ensures { result ≡ made_by number (dec_block block.now) }
{
    if number != 0x08 {
        return None;
    }
    Some(Made {
        id: vacant::ended_thread(block),
        tls: vacant::tls_slot(block),
        status_word: codec::get32(block, 0),
    })
}

// A thread that 0x08 makes gets its row of the bank.
pub fn put_bank(bank: &mut Bank, made: Option<Made>, r: Registers)
    requires id_bound { IfSome made (λ m. m.id < 32) }
    ensures { bank.new ≡ bank_made bank.old made r }
{
    if let Some(m) = made {
        let context = thread::create::new_context(m.status_word, r.r1, r.r3, r.r2, m.tls);
        block::context::put_row(bank, m.id, context);
    }
}
