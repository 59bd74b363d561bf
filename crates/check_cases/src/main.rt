//! Replays the checks on standard input, prints each line that differs, and then how many cases there were and how many
//! differ. tests/check/README.md says what the lines are and where the expected answers come from.
#![tactic(auto)]

use anyhow::{Context, Result};
use gsym_verify::{Finding, check};
use std::alloc::Global;
use std::io::{self, BufRead, BufReader};

// A file, and what is expected of its check: the number and the entry, 0 and 0 where it passes.
#[derive(Drop)]
struct Case {
    number: u64,
    entry: u64,
    file: Vec<u8>,
}

// `.` stands for no bytes.
fn parse_bytes(alloc: Global, word: &str) -> Result<Vec<u8>> {
    if word == "." {
        return Ok(Vec::new(alloc));
    }
    Ok(hex::decode(alloc, word)?)
}

// A line: the number, the entry and the bytes, in hexadecimal, parted by single spaces.
fn parse(alloc: Global, line: &str) -> Result<Case> {
    let (number, rest) = line.split_once(' ').context("a single word")?;
    let (entry, bytes) = rest.split_once(' ').context("no bytes")?;
    Ok(Case {
        number: u64::from_str_radix(number, 16)?,
        entry: u64::from_str_radix(entry, 16)?,
        file: parse_bytes(alloc, bytes)?,
    })
}

// What is found, as number and entry.
fn found(file: &[u8]) -> (u64, u64) {
    match check(file) {
        Ok(()) => (0, 0),
        Err(Finding::Entry { index, fault }) => (fault.number() as u64, index as u64),
        Err(finding) => (finding.number() as u64, 0),
    }
}

// Whether a line's check comes to what is expected; else it is told.
fn replay(rt: &impl Print, alloc: Global, line: &str) -> io::Result<bool> {
    let case = match parse(alloc, line) {
        Ok(case) => case,
        Err(error) => {
            println!(rt; "{line}\n  {error}")?;
            return Ok(false);
        }
    };
    let (number, entry) = found(&case.file);
    let agrees = number == case.number && entry == case.entry;
    if !agrees {
        println!(rt; "{line}\n  found {number:x} {entry:x}")?;
    }
    Ok(agrees)
}

fn main(rt: HostRuntime) -> io::Result<()> {
    let alloc = rt.alloc();
    let mut cases = 0u64;
    let mut differ = 0u64;
    for line in BufReader::new(alloc, rt.reader())?.lines(alloc) {
        let line = line?;
        if line.starts_with('#') {
            continue;
        }
        cases = cases.saturating_add(1);
        if !replay(&rt, alloc, &line)? {
            differ = differ.saturating_add(1);
        }
    }
    println!(rt; "{cases} cases, {differ} differ")
}
