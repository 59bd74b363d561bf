//! Replays the vectors on standard input, prints each that differs, and then how many there were and how many differ.
//! A line is a case, or a remark that starts with `#`. tests/vectors/README.md says what each kind of case is and where
//! the expected answers come from.
#![tactic(auto)]

mod blocks;
mod case;
mod leaves;
mod lines;
mod said;
mod tables;

use case::Case;
use std::alloc::Global;
use std::io::{self, BufRead, BufReader};

// Whether the case's leaf answers as the line expects; prints the line where it does not.
fn agrees(rt: &impl Print, alloc: Global, line: &str) -> io::Result<bool> {
    let case = match Case::parse(alloc, line) {
        Ok(case) => case,
        Err(error) => {
            println!(rt; "{line}\n  not replayed: {error}")?;
            return Ok(false);
        }
    };
    let expected = case.expected;
    let answered = leaves::answer(&case).words();
    if answered != expected {
        println!(rt; "{line}\n  expected {expected}\n  answered {answered}")?;
    }
    Ok(answered == expected)
}

fn main(rt: HostRuntime) -> io::Result<()> {
    let alloc = rt.alloc();
    let mut cases = 0u64;
    let mut differ = 0u64;
    for line in BufReader::new(alloc, rt.reader())?.lines(alloc) {
        let line = line?;
        if line.is_empty() || line.starts_with('#') {
            continue;
        }
        cases = cases.saturating_add(1);
        if !agrees(&rt, alloc, &line)? {
            differ = differ.saturating_add(1);
        }
    }
    println!(rt; "{cases} cases, {differ} differ")
}
