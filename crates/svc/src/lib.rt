// What guest calls are given and what they leave (svc.rs); the definitions are in specs/.
#![tactic(auto)]

pub mod read;

use types::kernel::Kernel;

// The first six registers, as a call reads them.
#[derive(Clone, Copy)]
pub struct Registers {
    pub r0: u32,
    pub r1: u32,
    pub r2: u32,
    pub r3: u32,
    pub r4: u32,
    pub r5: u32,
}

// A row of the call table: the registers that a call reads and those that it may write, bit i for register i.
#[derive(Clone, Copy)]
pub struct CallRow {
    pub number: u32,
    pub reads: u32,
    pub writes: u32,
}

// What a call leaves: the state, the answer, the registers it writes, and the word it writes at its address.
#[derive(Clone, Copy)]
pub struct Served {
    pub kernel: Kernel,
    pub answer: u32,
    pub r0: Option<u32>,
    pub r1: Option<u32>,
    pub word: Option<u32>,
}
