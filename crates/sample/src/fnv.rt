// The hash FNV-1a of 32 bits.

// The hash of no bytes.
pub const START: u32 = 2166136261;

const PRIME: u32 = 16777619;

// The hash h continued over s.
pub fn hash(h: u32, s: &[u8]) -> u32 {
    s.iter()
        .fold(h, |h, b| (h ^ u32::from(*b)).wrapping_mul(PRIME))
}
