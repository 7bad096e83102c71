// What was replayed, and what differed.
use crate::line::Line;
use std::fmt;

#[derive(Clone, Copy, Default)]
pub struct Tally {
    pub lines: u32,
    pub operations: u32,
    pub differing: u32,
    // The line of the first that differs.
    pub first: Option<u32>,
    // A bit for each.
    pub profiles: u32,
    pub calls: u64,
    // How many operations answered each number below 32.
    pub counts: [u32; 32],
}

impl Tally {
    pub fn new() -> Tally {
        Tally::default()
    }

    // One line more. r PROFILE SEED starts a sequence, d is a guest call. Refusal 3 is of a number that is no guest
    // call.
    pub fn line(&mut self, line: &Line) {
        self.lines = self.lines.wrapping_add(1);
        if line.kind == b'r' && line.words[1] < 32 {
            self.profiles |= 1 << line.words[1];
        }
        if line.kind == b'd' && line.words[1] != 3 && line.words[3] < 64 {
            self.calls |= 1 << line.words[3];
        }
    }

    // An operation that answered this number, in the original; whether the library agrees.
    pub fn operation(&mut self, number: u32, same: bool) {
        if let Some(n) = self.counts.get_mut(number as usize) {
            *n = n.wrapping_add(1);
        }
        self.operations = self.operations.wrapping_add(1);
        if !same {
            self.first = self.first.or(Some(self.lines));
            self.differing = self.differing.wrapping_add(1);
        }
    }
}

impl fmt::Display for Tally {
    fn fmt<W: fmt::Write>(&self, f: &mut fmt::Formatter<W>) -> fmt::Result {
        let profiles = self.profiles.count_ones();
        let calls = self.calls.count_ones();
        writeln!(
            f,
            "replay: {} operations of {profiles} profiles, {calls} guest calls, {} differing",
            self.operations, self.differing
        )?;
        if let Some(line) = self.first {
            writeln!(f, "the first in line {line}")?;
        }
        for (number, n) in self.counts.iter().enumerate() {
            if *n != 0 {
                writeln!(f, "{n} answered {number}")?;
            }
        }
        Ok(())
    }
}
