// The thread records.
use crate::row::Canonical;
use block::thread::{SPARE_AT, SPARE_WORDS};
use types::thread::{Thread, WAIT_LIST};
use units::ObjectId;

impl Canonical for Thread {
    // Any object numbers are the encoding of themselves, so the list is not read.
    fn canonical(s: &[u8]) -> bool {
        let w = block::thread::get_words(s);
        let t = block::thread::thread_of(w, [ObjectId(0); WAIT_LIST]);
        w == block::thread::thread_words(t) && codec::zero_words(s, SPARE_AT, SPARE_WORDS)
    }
}
