// `close_handle`: an unknown handle is done, a pseudo-handle too.
ghost use Rattle.std.specs.Prelude.{◌≡◌, true, ◌+◌, ◌-◌, ◌<◌, length};
ghost use Rattle.block.specs.Block.{dec_block};
ghost use Rattle.sound.specs.Question.{sound?};
ghost use Rattle.object.specs.Handles.{without, taken_out, close};
ghost use Rattle.release.specs.Encoded.{Encoded};
ghost use Rattle.svc.specs.Call.{with_handles};
ghost use Rattle.svc.specs.Handles as def;
ghost use Rattle.rows.specs.Holds.{Holds, with_table, with_entries};
ghost use Rattle.outcome.specs.Outcome.{outcome, left};

use block::{Block, Head, record};
use outcome::Outcome;
use rows::{read, write};
use svc::Registers;
use types::object::HandleEntry;
use types::refusal::Refusal;
use units::{Handle, ObjectId};

// The entry at place i is taken out, and those after it move up.
#[tactic(auto, using(crate::proofs::Removed::removes))]
fn remove_entry(block: &mut Block, i: usize)
    requires encoded { Encoded block.old }
    requires i_bound { i < 256 }
    ensures { Holds block.new (with_table (dec_block block.old)
        (with_entries (dec_block block.old).handles (without (dec_block block.old).handles.entries i))) }
{
    for j in i..255 {
        let e = record::entry_at(block, j + 1);
        write::put_entry(block, j as u32, e);
    }
    write::put_entry(block, 255, HandleEntry::default());
}

// One handle fewer.
fn take_out(block: &mut Block, i: usize)
    requires encoded { Encoded block.old }
    requires i_bound { i < 256 }
    ensures { Holds block.new (with_table (dec_block block.old) (taken_out (dec_block block.old).handles i)) }
{
    let head = block::get_head(block);
    remove_entry(block, i);
    write::put_head(
        block,
        Head {
            handle_count: head.handle_count.saturating_sub(1),
            ..head
        },
    );
}

// The object loses a holder and the handle its entry; an unknown handle has no object. The entry itself is taken out,
// so it is found by its place and not by resolve, as the Rust's `close` removes it from its map.
#[tactic(auto, using(crate::proofs::Written::closes))]
fn put_closed(block: &mut Block, h: Handle)
    requires block_value { sound? block.old ≡ true }
    ensures { Holds block.new (with_handles (dec_block block.old)
        (close (dec_block block.old).handles (dec_block block.old).objects h.0).table
        (close (dec_block block.old).handles (dec_block block.old).objects h.0).store) }
{
    let Some(i) = read::place_of(block, h) else {
        return;
    };
    let o = record::entry_at(block, i).object;
    if o.0 == 0 {
        return;
    }
    release::release(block, o);
    take_out(block, i);
}

// r0 handle.
pub fn close_handle(block: &mut Block, r: Registers) -> Result<Outcome, Refusal>
    requires block_value { sound? block.old ≡ true }
    ensures value { result ≡ outcome (def.close_handle (dec_block block.old) r) }
    ensures block_after { block.new ≡ left (def.close_handle (dec_block block.old) r) block.old }
{
    outcome::room(false, outcome::out_of_handles(block))?;
    put_closed(block, Handle(r.r0));
    Ok(outcome::done())
}
