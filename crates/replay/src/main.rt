// Replays a recorded sample of what the original answers on the operations of the exports. The record is the program's
// standard input: for each operation the number that the original gave, and a hash of the answer slice and of
// everything lent after it.
#![tactic(auto)]

mod replay;

use std::io::{self, Read};

// Of a longer record only this many bytes are read.
const MOST: u64 = 262144;

fn main(rt: HostRuntime) -> io::Result<()> {
    let mut text = Vec::new(rt.alloc());
    rt.reader().take(MOST).read_to_end(&mut text)?;
    let tally = replay::replay(&text);
    print!(rt; "{tally}")
}
