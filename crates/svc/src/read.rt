// How calls read a handle (svc.rs).
ghost use Rattle.std.specs.Prelude.{◌≡◌};
ghost use Rattle.pass.specs.Asks.{pseudo};

use units::Handle;

// 0xFFFF8000 and 0xFFFF8001, which name no entry of the table.
#[tactic(auto, using(laws::specs::Logic::or_yes, laws::specs::Logic::or_no))]
pub fn is_pseudo(h: Handle) -> bool
    ensures { result ≡ pseudo h.0 }
{
    h.0 == 0xFFFF8000 || h.0 == 0xFFFF8001
}
