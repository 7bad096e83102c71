// Handle entries, arbiter records and object numbers as bytes.
ghost use Rattle.block.specs.Table.{enc_entry, dec_entry, enc_waiter, dec_waiter, enc_id, dec_id};
ghost use Rattle.block.specs.Sizes.{length-enc_entry, length-enc_waiter, length-enc_id};

use crate::record::Record;
use codec::Two;
use types::object::{HandleEntry, Waiter};
use units::{Handle, ObjectId};

impl Record for HandleEntry {
    ghost SIZE = { 8 };

    ghost enc = { enc_entry };

    ghost dec = { dec_entry };

    const SIZE: usize = 8;

    #[tactic(auto, unfolding(crate::specs::Table::dec_entry))]
    fn get(s: &[u8]) -> HandleEntry {
        let w = codec::get_two(s, 0);
        HandleEntry {
            handle: Handle(w.0),
            object: ObjectId(w.1),
        }
    }

    fn put(self, b: &mut [u8]) {
        codec::put_two(b, 0, Two(self.handle.0, self.object.0));
    }

    ghost sized = { length-enc_entry };
}

impl Record for Waiter {
    ghost SIZE = { 12 };

    ghost enc = { enc_waiter };

    ghost dec = { dec_waiter };

    const SIZE: usize = 12;

    #[tactic(auto, unfolding(crate::specs::Table::dec_waiter))]
    fn get(s: &[u8]) -> Waiter {
        let w = codec::get_two(s, 0);
        Waiter {
            thread: w.0,
            address: w.1,
            next: codec::get32(s, 8),
        }
    }

    fn put(self, b: &mut [u8]) {
        codec::put_two(b, 0, Two(self.thread, self.address));
        codec::put32(b, 8, self.next);
    }

    ghost sized = { length-enc_waiter };
}

impl Record for ObjectId {
    ghost SIZE = { 4 };

    ghost enc = { enc_id };

    ghost dec = { dec_id };

    const SIZE: usize = 4;

    #[tactic(auto, unfolding(crate::specs::Table::dec_id))]
    fn get(s: &[u8]) -> ObjectId {
        ObjectId(codec::get32(s, 0))
    }

    fn put(self, b: &mut [u8]) {
        codec::put32(b, 0, self.0);
    }

    ghost sized = { length-enc_id };
}
