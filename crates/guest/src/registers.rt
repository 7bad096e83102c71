// r0 to r5 in the processor.
ghost use Rattle.std.specs.Prelude.{◌≡◌, ◌-◌, length};
ghost use Rattle.codec.specs.Bytes.{bytes, le, over};
ghost use Rattle.svc.specs.Table.{row_of, written};
ghost use Rattle.svc.specs.Dispatch.{given};
ghost use Rattle.lent.specs.Guest as def;

use block::context::Processor;
use svc::Registers;

fn registers_at(processor: &Processor) -> Registers
    ensures { result ≡ def.registers processor.now }
{
    Registers {
        r0: codec::get32(processor, 0),
        r1: codec::get32(processor, 4),
        r2: codec::get32(processor, 8),
        r3: codec::get32(processor, 12),
        r4: codec::get32(processor, 16),
        r5: codec::get32(processor, 20),
    }
}

// The registers that the call may read; the others are 0.
pub fn registers_for(number: u32, processor: &Processor) -> Registers
    ensures { result ≡ given number (def.registers processor.now) }
{
    table::registers::read_by(table::row_of(number).reads, registers_at(processor))
}

// r0 and r1, as far as the call may write them.
pub fn put_registers(processor: &mut Processor, number: u32, r0: Option<u32>, r1: Option<u32>)
    ensures { processor.new ≡ over (over processor.old 0 (bytes 4 (written (row_of number).writes 1 r0 (le 4 processor.old 0)))) 4 (bytes 4 (written (row_of number).writes 2 r1 (le 4 processor.old 4))) }
{
    let row = table::row_of(number);
    let old0 = codec::get32(processor, 0);
    let old1 = codec::get32(processor, 4);
    let new0 = table::registers::written(row.writes, 1, r0, old0);
    let new1 = table::registers::written(row.writes, 2, r1, old1);
    codec::put32(processor, 0, new0);
    codec::put32(processor, 4, new1);
}
