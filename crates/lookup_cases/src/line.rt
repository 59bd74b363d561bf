//! A line of the vectors: a letter, and numbers or bytes in hexadecimal, parted by single spaces.
use crate::answered::{ANSWER_LEN, Answered, Question, RECORD_LEN};
use anyhow::{Context, Result, bail};
use gsym_types::{Address, Options};
use std::alloc::Global;

/// What a line says.
#[derive(Drop)]
pub enum Line {
    /// the file of the cases after it
    File(Vec<u8>),
    /// what is asked of that file, and what is expected
    Case(Question, Expected),
    /// a record of the case before it
    Record([u64; RECORD_LEN]),
}

/// An answer's numbers, whose records stand on lines of their own; or its first number and a digest of all others.
#[derive(Drop)]
pub enum Expected {
    Whole([u64; ANSWER_LEN]),
    Digest { number: u64, digest: u64 },
}

impl Expected {
    /// Whether the answer is the expected one; records on lines of their own are judged apart.
    pub fn is_met_by(&self, answered: &Answered) -> bool {
        match self {
            Expected::Whole(numbers) => answered.numbers == *numbers,
            Expected::Digest { number, digest } => {
                answered.numbers[0] == *number && answered.digest() == *digest
            }
        }
    }

    /// How many lines of records are to follow.
    pub fn record_lines(&self) -> u64 {
        match self {
            Expected::Whole(numbers) => numbers[ANSWER_LEN - 1],
            Expected::Digest { .. } => 0,
        }
    }
}

// `.` stands for no bytes.
fn parse_bytes(alloc: Global, word: &str) -> Result<Vec<u8>> {
    if word == "." {
        return Ok(Vec::new(alloc));
    }
    Ok(hex::decode(alloc, word)?)
}

fn parse_numbers(alloc: Global, words: &str) -> Result<Vec<u64>> {
    let mut numbers = Vec::new(alloc);
    for word in words.split(' ') {
        numbers.push(u64::from_str_radix(word, 16)?)?;
    }
    Ok(numbers)
}

// Of the options bit 0 is for code info and bit 1 for inlining.
fn question(addr: u64, options: u64, room: u64) -> Question {
    Question {
        addr: Address(addr),
        options: Options {
            code_info: options & 1 != 0,
            inlining: options & 2 != 0,
        },
        room: room as usize,
    }
}

impl Line {
    /// A line of one of the four kinds; an error where it is none or a number doesn't read.
    pub fn parse(alloc: Global, line: &str) -> Result<Line> {
        let (kind, words) = line.split_once(' ').context("a single word")?;
        if kind == "@" {
            return Ok(Line::File(parse_bytes(alloc, words)?));
        }
        let numbers = parse_numbers(alloc, words)?;
        match (kind, numbers.as_slice()) {
            ("A", [addr, options, room, answer @ ..]) => Ok(Line::Case(
                question(*addr, *options, *room),
                Expected::Whole(answer.try_into()?),
            )),
            ("D", [addr, options, room, number, digest]) => Ok(Line::Case(
                question(*addr, *options, *room),
                Expected::Digest {
                    number: *number,
                    digest: *digest,
                },
            )),
            ("R", record) => Ok(Line::Record(record.try_into()?)),
            _ => bail!("no such kind of line"),
        }
    }
}
