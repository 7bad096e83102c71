// How often the block names each object, besides by handles.
ghost use Rattle.std.specs.Prelude.{◌≡◌};
ghost use Rattle.laws.specs.Tally.{tally, tally_all};
ghost use Rattle.block.specs.Tables.{threads_in, kept_in};
ghost use Rattle.tally.specs.Lists.{names, list_names};

use block::Block;

// One more for each object that a thread's list names.
#[tactic(auto, using(crate::proofs::Tests::tables))]
pub fn tally_lists(c: &mut [u32; 129], b: &Block)
    ensures { c.new ≡ tally_all 129 c.old (list_names (threads_in b.now)) }
{
    for i in 0..32 {
        tally::tally_names(c, block::record::thread_at(b, i).wait_objects);
    }
}

// One more for each kept thread object.
#[tactic(auto, using(crate::proofs::Tests::tables))]
pub fn tally_kept(c: &mut [u32; 129], b: &Block)
    ensures { c.new ≡ tally 129 c.old (names (kept_in b.now)) }
{
    for i in 0..32 {
        tally::bump_at(c, tally::name(block::record::kept_at(b, i).0));
    }
}
