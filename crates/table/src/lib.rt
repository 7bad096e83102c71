// The call table: for each call number the registers that it reads and those that it may write. Beside it the questions
// that are a call's own, and the registers by mask.
#![tactic(auto)]

pub mod questions;
pub mod registers;

ghost use Rattle.std.specs.Prelude.{◌≡◌};
ghost use Rattle.svc.specs.Table as def;

use svc::CallRow;

// By the numbers of the guest's interface, which `known` and `row` are asked with.
const CALLS: [CallRow; 21] = [
    // CreateThread
    CallRow {
        number: 0x08,
        reads: 0x1F,
        writes: 0x03,
    },
    // ExitThread
    CallRow {
        number: 0x09,
        reads: 0x00,
        writes: 0x00,
    },
    // SleepThread
    CallRow {
        number: 0x0A,
        reads: 0x03,
        writes: 0x01,
    },
    // SetThreadPriority
    CallRow {
        number: 0x0C,
        reads: 0x03,
        writes: 0x01,
    },
    // CreateMutex
    CallRow {
        number: 0x13,
        reads: 0x02,
        writes: 0x03,
    },
    // ReleaseMutex
    CallRow {
        number: 0x14,
        reads: 0x01,
        writes: 0x01,
    },
    // CreateSemaphore
    CallRow {
        number: 0x15,
        reads: 0x06,
        writes: 0x03,
    },
    // ReleaseSemaphore
    CallRow {
        number: 0x16,
        reads: 0x06,
        writes: 0x03,
    },
    // CreateEvent
    CallRow {
        number: 0x17,
        reads: 0x02,
        writes: 0x03,
    },
    // SignalEvent
    CallRow {
        number: 0x18,
        reads: 0x01,
        writes: 0x01,
    },
    // ClearEvent
    CallRow {
        number: 0x19,
        reads: 0x01,
        writes: 0x01,
    },
    // CreateTimer
    CallRow {
        number: 0x1A,
        reads: 0x02,
        writes: 0x03,
    },
    // SetTimer
    CallRow {
        number: 0x1B,
        reads: 0x1F,
        writes: 0x01,
    },
    // CancelTimer
    CallRow {
        number: 0x1C,
        reads: 0x01,
        writes: 0x01,
    },
    // ClearTimer
    CallRow {
        number: 0x1D,
        reads: 0x01,
        writes: 0x01,
    },
    // CreateAddressArbiter
    CallRow {
        number: 0x21,
        reads: 0x00,
        writes: 0x03,
    },
    // ArbitrateAddress
    CallRow {
        number: 0x22,
        reads: 0x3F,
        writes: 0x01,
    },
    // CloseHandle
    CallRow {
        number: 0x23,
        reads: 0x01,
        writes: 0x01,
    },
    // WaitSynchronization1
    CallRow {
        number: 0x24,
        reads: 0x0D,
        writes: 0x01,
    },
    // WaitSynchronizationN
    CallRow {
        number: 0x25,
        reads: 0x1F,
        writes: 0x03,
    },
    // DuplicateHandle
    CallRow {
        number: 0x27,
        reads: 0x02,
        writes: 0x03,
    },
];

// The row of a call number; a number that is not in the table reads and writes nothing.
#[tactic(auto, using(crate::proofs::Rows::row_hit, crate::proofs::Rows::row_miss, crate::proofs::Rows::row_end), unfolding(svc::specs::Table::table, svc::specs::Table::row_of))]
pub fn row_of(number: u32) -> CallRow
    ensures { result ≡ def.row_of number }
{
    for row in &CALLS {
        if row.number == number {
            return *row;
        }
    }
    CallRow {
        number,
        reads: 0,
        writes: 0,
    }
}

// Question 3.
pub fn known(number: u32) -> bool
    ensures { result ≡ def.known? number }
{
    CALLS.iter().any(|row| row.number == number)
}
