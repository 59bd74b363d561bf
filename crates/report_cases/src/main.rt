//! Replays the inputs of reports on standard input, prints each line whose output differs, and then how many cases
//! there were and how many differ. Each is also written to writers that fail in mid-stream, which must be left with the
//! front that they took, and read from a reader that fails, with which nothing must be written. tests/report/README.md
//! says what the lines are and where the expected outputs come from.
#![tactic(auto)]

mod broken;

use anyhow::{Context, Result};
use broken::{BrokenReader, BrokenWriter};
use std::alloc::Global;
use std::io::{self, BufRead, BufReader, ErrorKind};

// An input, and what is expected to be written.
#[derive(Drop)]
struct Case {
    input: Vec<u8>,
    output: Vec<u8>,
}

// `.` stands for no bytes.
fn parse_bytes(alloc: Global, word: &str) -> Result<Vec<u8>> {
    if word == "." {
        return Ok(Vec::new(alloc));
    }
    Ok(hex::decode(alloc, word)?)
}

// A line: input and output in hexadecimal, parted by a single space.
fn parse(alloc: Global, line: &str) -> Result<Case> {
    let (input, output) = line.split_once(' ').context("a single word")?;
    Ok(Case {
        input: parse_bytes(alloc, input)?,
        output: parse_bytes(alloc, output)?,
    })
}

// What is written for an input.
fn output_of(alloc: Global, input: &[u8]) -> io::Result<Vec<u8>> {
    let mut rest = input;
    let mut out = Vec::new(alloc);
    gsym_report::run(alloc, &mut rest, &mut out)?;
    Ok(out)
}

// Whether a run that was cut failed for that, and left this.
fn is_cut(run: io::Result<()>, left: &[u8], wanted: &[u8]) -> bool {
    match run {
        Ok(()) => false,
        Err(error) => error.kind() == ErrorKind::TimedOut && left == wanted,
    }
}

// Whether a writer that takes so many bytes, and fails then or when it is flushed, is left with these of the output.
fn is_front(alloc: Global, input: &[u8], output: &[u8], room: usize) -> bool {
    let mut rest = input;
    let mut out = BrokenWriter {
        taken: Vec::new(alloc),
        room,
        interrupted: false,
    };
    let run = gsym_report::run(alloc, &mut rest, &mut out);
    let (front, _) = output.split_at(room.min(output.len()));
    is_cut(run, &out.taken, front)
}

// Whether all is written where the writer fails to hand it on.
fn is_unflushed(alloc: Global, input: &[u8], output: &[u8]) -> bool {
    is_front(alloc, input, output, output.len())
}

// Whether nothing is written where the reader fails behind the input.
fn is_unread(alloc: Global, input: &[u8]) -> bool {
    let mut out = Vec::new(alloc);
    let run = gsym_report::run(alloc, &mut BrokenReader { rest: input }, &mut out);
    is_cut(run, &out, b"")
}

// Whether a failure leaves what it has to, at the first byte, in the middle and at the last one.
fn fails_well(alloc: Global, case: &Case) -> bool {
    let len = case.output.len();
    for room in [0, 1, len / 2, len.saturating_sub(1)] {
        if room < len && !is_front(alloc, &case.input, &case.output, room) {
            return false;
        }
    }
    if !is_unflushed(alloc, &case.input, &case.output) {
        return false;
    }
    case.input.len() as u64 >= gsym_report::MOST_READ || is_unread(alloc, &case.input)
}

// Whether what is written for a line's input is what is expected; else it is told.
fn replay(rt: &impl Print, alloc: Global, line: &str) -> Result<bool> {
    let case = match parse(alloc, line) {
        Ok(case) => case,
        Err(error) => {
            println!(rt; "{line}\n  {error}")?;
            return Ok(false);
        }
    };
    let output = output_of(alloc, &case.input)?;
    if output != case.output {
        println!(rt; "{line}\n  written {}", hex::encode(alloc, &output)?)?;
        return Ok(false);
    }
    if !fails_well(alloc, &case) {
        println!(rt; "{line}\n  a failure leaves something else")?;
        return Ok(false);
    }
    Ok(true)
}

fn main(rt: HostRuntime) -> Result<()> {
    let alloc = rt.alloc();
    let mut cases = 0u64;
    let mut differ = 0u64;
    for line in BufReader::new(alloc, rt.reader())?.lines(alloc) {
        let line = line?;
        if line.starts_with('#') {
            continue;
        }
        cases = cases.saturating_add(1);
        if !replay(&rt, alloc, &line)? {
            differ = differ.saturating_add(1);
        }
    }
    println!(rt; "{cases} cases, {differ} differ")?;
    Ok(())
}
