// One line of the record: a letter, then words in hexadecimal with a space before each.

// The words, and the letter, which has the place of word 0 too.
#[derive(Clone, Copy)]
pub struct Line {
    pub words: [u32; 16],
    pub kind: u8,
}

// What a hexadecimal digit says. Any other byte says 0.
fn digit(c: u8) -> u32 {
    match c {
        b'0'..=b'9' => u32::from(c - b'0'),
        b'a'..=b'f' => u32::from(c - b'a') + 10,
        _ => 0,
    }
}

impl Line {
    // The text ends with the line's end, or with the record's. Words after the sixteenth are passed over.
    pub fn parse(text: &[u8]) -> Line {
        let mut line = Line {
            words: [0; 16],
            kind: b'\n',
        };
        line.read(text);
        line
    }

    // The line of this text in place of this one, with no copy of its words.
    pub fn read(&mut self, text: &[u8]) {
        let kind = text.first().copied().unwrap_or(b'\n');
        self.words = [0; 16];
        let text = text.strip_suffix(b"\n").unwrap_or(text);
        let mut k = 0;
        for c in text {
            let Some(word) = self.words.get_mut(k) else {
                break;
            };
            match *c {
                b' ' => k += 1,
                c => *word = *word << 4 | digit(c),
            }
        }
        self.kind = kind;
    }
}
