// What the host lends, as lines of the record set it.
use crate::fnv;
use crate::line::Line;

#[derive(Drop)]
pub struct Lent {
    pub block: [u8; 16384],
    pub bank: [u8; 6656],
    pub processor: [u8; 208],
    pub window: [u8; 256],
    // Where the guest window lies, and how much of it is lent.
    pub base: u32,
    pub len: u32,
}

// A word at this place, if there is room for it.
pub fn store(bytes: &mut [u8], at: u32, word: u32) {
    let at = at as usize;
    if 4 <= bytes.len() && at <= bytes.len() - 4 {
        codec::put32(bytes, at, word);
    }
}

impl Lent {
    // Zeros in everything.
    pub fn new() -> Lent {
        Lent {
            block: [0; 16384],
            bank: [0; 6656],
            processor: [0; 208],
            window: [0; 256],
            base: 0,
            len: 0,
        }
    }

    // r0 to r5, which stand from word 4 on.
    pub fn put_registers(&mut self, line: &Line) {
        for i in 0..6u32 {
            store(&mut self.processor, i * 4, line.words[4 + i as usize]);
        }
    }

    // The hash of the answer slice continued over everything lent.
    pub fn hash(&self, h: u32) -> u32 {
        let h = fnv::hash(h, &self.block);
        let h = fnv::hash(h, &self.bank);
        let h = fnv::hash(h, &self.processor);
        fnv::hash(h, &self.window)
    }

    // What a line that names no operation does. Gives whether the line is such a one.
    pub fn set(&mut self, line: &Line) -> bool {
        let words = &line.words;
        match line.kind {
            // p AREA PLACE WORD: the host, or an operation that the library does not have, changed a word.
            b'p' => match words[1] {
                0 => store(&mut self.block, words[2], words[3]),
                1 => store(&mut self.bank, words[2], words[3]),
                2 => store(&mut self.processor, words[2], words[3]),
                _ => store(&mut self.window, words[2], words[3]),
            },
            // r PROFILE SEED: a sequence starts, with zeros in everything and no window.
            b'r' => *self = Lent::new(),
            // w BASE LENGTH: the host lends another window.
            b'w' => {
                self.window = [0; 256];
                self.base = words[1];
                self.len = words[2];
            }
            b'#' => {}
            _ => return false,
        }
        true
    }
}
