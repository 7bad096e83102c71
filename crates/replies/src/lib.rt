// The operations of the exports on what a line of the record says, but guest calls. Words 1 and 2 of a line are the
// number and the hash that the original gave, the arguments stand from word 3 on, a tick as its upper and its lower
// half.
#![tactic(auto)]

use sample::fnv;
use sample::line::Line;
use sample::memory::{self, Lent};
use units::{Handle, Ticks};

// What an operation returned, and the hash of the answer slice that it was lent.
#[derive(Clone, Copy)]
pub struct Answer {
    pub number: u32,
    pub hash: u32,
}

impl Answer {
    pub fn new(number: u32, slice: &[u8]) -> Answer {
        Answer {
            number,
            hash: fnv::hash(fnv::START, slice),
        }
    }
}

pub fn tick(upper: u32, lower: u32) -> Ticks {
    Ticks((upper as u64) << 32 | lower as u64)
}

fn create(words: &[u32; 16], lent: &mut Lent) -> Answer {
    let mut answer = [0xA5u8; 4];
    let number = create_thread::operate(
        &mut lent.block,
        &mut lent.bank,
        &mut answer,
        words[3],
        words[4],
        words[5],
        words[6],
        words[7],
    );
    Answer::new(number, &answer)
}

pub fn pass(words: &[u32; 16], lent: &mut Lent) -> Answer {
    let mut answer = [0xA5u8; 4];
    let at = tick(words[3], words[4]);
    let number = schedule::operate(
        &mut lent.block,
        &mut lent.bank,
        &mut lent.processor,
        &mut answer,
        at,
    );
    Answer::new(number, &answer)
}

fn event(lent: &Lent) -> Answer {
    let mut answer = [0xA5u8; 16];
    let number = next_event::operate(&lent.block, &mut answer);
    Answer::new(number, &answer)
}

// Nine handles stand from word 7 on; word 6 is how many of them are asked.
fn satisfied(words: &[u32; 16], lent: &Lent) -> Answer {
    let mut list = [0u8; 36];
    for i in 0..9u32 {
        memory::store(&mut list, i * 4, words[7 + i as usize]);
    }
    let asked = (words[6] as usize).min(9) * 4;
    let mut answer = [0xA5u8; 40];
    let at = tick(words[4], words[5]);
    let number = satisfied_now::operate(&lent.block, &list[..asked], &mut answer, words[3], at);
    Answer::new(number, &answer)
}

fn quiet(words: &[u32; 16], lent: &Lent) -> Answer {
    let mut answer = [0xA5u8; 12];
    let at = tick(words[4], words[5]);
    let number = quiet_release::operate(&lent.block, &mut answer, Handle(words[3]), at);
    Answer::new(number, &answer)
}

pub fn collected(lent: &mut Lent) -> Answer {
    let mut answer = [0xA5u8; 12];
    let number = collect::operate(&mut lent.block, &mut answer);
    Answer::new(number, &answer)
}

// The operation that a line's letter names, if it names one of these.
pub fn operate(line: &Line, lent: &mut Lent) -> Option<Answer> {
    let words = &line.words;
    Some(match line.kind {
        b'f' => Answer::new(
            fresh_start::operate(&mut lent.block, &mut lent.bank, words[3]),
            &[],
        ),
        b't' => create(words, lent),
        b'e' => Answer::new(end_thread::operate(&mut lent.block, words[3]), &[]),
        b'n' => event(lent),
        b'h' => satisfied(words, lent),
        b'q' => quiet(words, lent),
        b's' => pass(words, lent),
        b'c' => collected(lent),
        _ => return None,
    })
}
