// A record, line by line.
use replies::Answer;
use sample::line::Line;
use sample::memory::Lent;
use sample::tally::Tally;

// A letter that names no operation gives this, which no operation returns. The hash begins at 0.
const NO_OPERATION: Answer = Answer {
    number: 99,
    hash: 0,
};

// A guest call; r0 to r5 are lent in the processor. The window is cut here: a part of an array in a struct is not lent.
fn call(
    words: &[u32; 16],
    block: &mut [u8],
    bank: &mut [u8],
    processor: &mut [u8],
    window: &mut [u8; 256],
    base: u32,
    len: u32,
) -> Answer {
    let at = replies::tick(words[10], words[11]);
    let n = (len as usize).min(256);
    let number = guest_call::operate(block, bank, processor, &mut window[..n], base, words[3], at);
    Answer::new(number, &[])
}

fn guest(line: &Line, lent: &mut Lent) -> Answer {
    lent.put_registers(line);
    call(
        &line.words,
        &mut lent.block,
        &mut lent.bank,
        &mut lent.processor,
        &mut lent.window,
        lent.base,
        lent.len,
    )
}

// Whether the number and the hash are the original's.
fn agrees(line: &Line, lent: &mut Lent) -> bool {
    let answer = if line.kind == b'd' {
        guest(line, lent)
    } else {
        replies::operate(line, lent).unwrap_or(NO_OPERATION)
    };
    answer.number == line.words[1] && lent.hash(answer.hash) == line.words[2]
}

pub fn replay(text: &[u8]) -> Tally {
    let mut lent = Lent::new();
    let mut tally = Tally::new();
    let mut line = Line::parse(&[]);
    for text in text.split_inclusive(|c| *c == b'\n') {
        line.read(text);
        tally.line(&line);
        if !lent.set(&line) {
            let same = agrees(&line, &mut lent);
            tally.operation(line.words[1], same);
        }
    }
    tally
}

#[cfg(test)]
mod tests {
    use super::*;

    // An unknown letter answers 99, and over zeros a hash that begins at 0 stays 0.
    #[test]
    fn unknown_letter(rt: HostRuntime) {
        let agrees = replay(b"x 63\n");
        assert_eq!(rt; agrees.operations, 1);
        assert_eq!(rt; agrees.differing, 0);
        let differs = replay(b"x 62\n");
        assert_eq!(rt; differs.operations, 1);
        assert_eq!(rt; differs.differing, 1);
    }
}
