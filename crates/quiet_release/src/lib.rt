// The operation that tells what letting go of a mutex would do without a pass.
#![tactic(auto)]

pub mod quiet;

ghost use Rattle.std.specs.Prelude.{◌≡◌, []};
ghost use Rattle.types.specs.Refusal.{found_in};
ghost use Rattle.lent.specs.Lent.{lent, back};
ghost use Rattle.lent.specs.Operations as def;

use codec::Two;
use lent::questions;
use pass::Release;
use types::refusal::{self, Refusal};
use units::{Handle, Ticks};

fn release_flag(r: Option<Release>) -> u32
    ensures { result ≡ def.release_flag r }
{
    r.is_some() as u32
}

fn release_object(r: Option<Release>) -> u32
    ensures { result ≡ def.release_object r }
{
    match r {
        None => 0,
        Some(Release::CountsDown(o) | Release::Frees(o)) => o.0,
    }
}

fn release_frees(r: Option<Release>) -> u32
    ensures { result ≡ def.release_frees r }
{
    matches!(&r, Some(Release::Frees(_))) as u32
}

fn put_release(answer: &mut [u8; 12], r: Option<Release>)
    ensures { answer.new ≡ def.release_bytes r }
{
    let flag = release_flag(r);
    let object = release_object(r);
    let frees = release_frees(r);
    codec::put_two(answer, 0, Two(flag, object));
    codec::put32(answer, 8, frees);
}

// What C gets, with the refusal itself.
#[tactic(auto, using(lent::proofs::Cases::cases), unfolding(lent::specs::Operations::quiet_release))]
fn look(block: &[u8], answer: &mut [u8], handle: Handle, tick: Ticks) -> Result<(), Refusal>
    ensures { back (found_in result) (lent block.now [] [] [] answer.new)
        ≡ def.quiet_release handle.0 tick.0 (lent block.now [] [] [] answer.old) }
{
    let Some(block) = block.as_array::<16384>() else {
        return Err(Refusal::Length);
    };
    let Some(answer) = answer.as_mut_array::<12>() else {
        return Err(Refusal::Length);
    };
    if !questions::block_ok(block) {
        return Err(Refusal::Unsound);
    }
    if outcome::out_of_handles(block) {
        return Err(Refusal::Overflow);
    }
    put_release(answer, quiet::quiet_release(block, handle, tick));
    Ok(())
}

// The mutex that the handle lets go of, and whether that frees it, if no pass is needed after it.
pub fn operate(block: &[u8], answer: &mut [u8], handle: Handle, tick: Ticks) -> u32
    ensures { back result (lent block.now [] [] [] answer.new)
        ≡ def.quiet_release handle.0 tick.0 (lent block.now [] [] [] answer.old) }
{
    refusal::number(look(block, answer, handle, tick))
}
