// The registers as a call may read and write them.
ghost use Rattle.std.specs.Prelude.{◌≡◌, ◌<◌};
ghost use Rattle.svc.specs.Table as def;

use svc::Registers;

// Bit i of a mask, where p is 2^i.
fn bit(mask: u32, p: u32) -> bool
    requires { 0 < p }
    ensures { result ≡ def.bit mask p }
{
    (mask / p) % 2 == 1
}

fn masked(mask: u32, p: u32, v: u32) -> u32
    requires { 0 < p }
    ensures { result ≡ def.masked mask p v }
{
    if bit(mask, p) { v } else { 0 }
}

// Registers that the call does not read are 0.
pub fn read_by(mask: u32, r: Registers) -> Registers
    ensures { result ≡ def.read_by mask r }
{
    Registers {
        r0: masked(mask, 1, r.r0),
        r1: masked(mask, 2, r.r1),
        r2: masked(mask, 4, r.r2),
        r3: masked(mask, 8, r.r3),
        r4: masked(mask, 16, r.r4),
        r5: masked(mask, 32, r.r5),
    }
}

fn written_as(b: bool, w: Option<u32>, old: u32) -> u32
    ensures { result ≡ def.written_as b w old }
{
    match w {
        Some(v) if b => v,
        _ => old,
    }
}

// What a register holds afterwards: one outside the mask is as before.
pub fn written(mask: u32, p: u32, w: Option<u32>, old: u32) -> u32
    requires { 0 < p }
    ensures { result ≡ def.written mask p w old }
{
    written_as(bit(mask, p), w, old)
}
