//! Replays the whole lookups on standard input, prints each line that differs, and then how many cases there were and
//! how many differ. tests/vectors/README.md says what the lines are and where the expected answers come from.
#![tactic(auto)]

mod answered;
mod line;
mod replay;

use replay::Replay;
use std::io::{self, BufRead, BufReader};

fn main(rt: HostRuntime) -> io::Result<()> {
    let alloc = rt.alloc();
    let mut replay = Replay::new(alloc);
    for line in BufReader::new(alloc, rt.reader())?.lines(alloc) {
        replay.take_line(&rt, alloc, &line?)?;
    }
    replay.close(&rt)?;
    println!(rt; "{} cases, {} differ", replay.cases, replay.differ)
}
