// What `arbitrate_address` can do (`ArbitrationType` of sync.rs).
ghost use Rattle.std.specs.Prelude.{◌≡◌};
ghost use Rattle.types.specs.Sync.{arbitration_from_raw};
ghost use Rattle.svc.specs.Arbiter as def;

use types::sync::ArbitrationType;

// Kinds 0 to 4, and none above: an Option as in the original, since there is no more to say of an unknown one.
pub fn from_raw(value: u32) -> Option<ArbitrationType>
    ensures { result ≡ arbitration_from_raw value }
{
    match value {
        0 => Some(ArbitrationType::Signal),
        1 => Some(ArbitrationType::WaitIfLessThan),
        2 => Some(ArbitrationType::DecrementAndWaitIfLessThan),
        3 => Some(ArbitrationType::WaitIfLessThanWithTimeout),
        4 => Some(ArbitrationType::DecrementAndWaitIfLessThanWithTimeout),
        _ => None,
    }
}

pub fn decrements(kind: ArbitrationType) -> bool
    ensures { result ≡ def.decrements kind }
{
    matches!(
        &kind,
        ArbitrationType::DecrementAndWaitIfLessThan
            | ArbitrationType::DecrementAndWaitIfLessThanWithTimeout
    )
}

pub fn has_timeout(kind: ArbitrationType) -> bool
    ensures { result ≡ def.has_timeout kind }
{
    matches!(
        &kind,
        ArbitrationType::WaitIfLessThanWithTimeout
            | ArbitrationType::DecrementAndWaitIfLessThanWithTimeout
    )
}
