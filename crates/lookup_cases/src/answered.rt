//! What is asked, and what the reader answers, as numbers.
use arrayvec::ArrayVec;
use gsym_resolver::Records;
use gsym_types::{
    Address, Answer, Frame, LineNumber, MAX_FRAMES, Options, Position, Refusal, Text,
};
use std::fmt;

/// How many numbers an answer has on a line.
pub const ANSWER_LEN: usize = 12;

/// How many numbers a record has on a line.
pub const RECORD_LEN: usize = 7;

/// What a case asks, and how many records it lends.
#[derive(Clone, Copy)]
pub struct Question {
    pub addr: Address,
    pub options: Options,
    pub room: usize,
}

/// An answer's numbers in the order of a line, its refusal number first, and the list that was lent.
#[derive(Drop)]
pub struct Answered {
    pub numbers: [u64; ANSWER_LEN],
    list: Records,
    // How many records the list that was lent has place for.
    lent: usize,
    /// without both options: the call that takes no list answers the same, and the list is as it was
    pub agrees_without_list: bool,
}

// A record that no file gives: a list is lent with it where no records are asked for.
const LENT: Frame = Frame {
    name: Text { place: 1, len: 2 },
    position: Position {
        dir: Text { place: 3, len: 4 },
        file: Text { place: 5, len: 6 },
        line: LineNumber(7),
    },
};

// An answer's numbers: 0 and what it says, with zeros where there is no position; or a refusal's number and zeros.
fn numbers_of(looked_up: Result<Answer, Refusal>) -> [u64; ANSWER_LEN] {
    match looked_up {
        Err(refusal) => [refusal.number() as u64, 0, 0, 0, 0, 0, 0, 0, 0, 0, 0, 0],
        Ok(answer) => {
            let position = answer.position.unwrap_or_default();
            [
                0,
                answer.addr.0,
                answer.size as u64,
                answer.name.place as u64,
                answer.name.len as u64,
                u64::from(answer.position.is_some()),
                position.dir.place as u64,
                position.dir.len as u64,
                position.file.place as u64,
                position.file.len as u64,
                position.line.0 as u64,
                answer.count as u64,
            ]
        }
    }
}

impl Question {
    /// What the reader answers, with a list of 64 records of which it may use `room`; without both options the list is
    /// lent with a record in it, which has to stay.
    pub fn ask(self, file: &[u8]) -> Answered {
        let Question {
            addr,
            options,
            room,
        } = self;
        let asks_records = options.code_info && options.inlining;
        let mut list: Records = ArrayVec::new();
        if !asks_records {
            list.push(LENT);
        }
        let looked_up = gsym_resolver::lookup_in(file, addr, options, room, &mut list);
        let numbers = numbers_of(looked_up);
        let agrees_without_list = asks_records
            || numbers == numbers_of(gsym_resolver::lookup_plain(file, addr, options.code_info))
                && list.len() == 1
                && list.as_slice().first() == Some(&LENT);
        if !asks_records {
            list.clear();
        }
        Answered {
            numbers,
            list,
            lent: room.min(MAX_FRAMES),
            agrees_without_list,
        }
    }
}

impl Answered {
    /// The numbers of a record of the list that was lent, zeros where none was written, none past its end.
    pub fn record(&self, index: usize) -> Option<[u64; RECORD_LEN]> {
        match self.list.as_slice().get(index) {
            Some(frame) => Some(record_numbers(*frame)),
            None if index < self.lent => Some([0; RECORD_LEN]),
            None => None,
        }
    }

    /// From 0 on, for each number behind the first and of the records: itself times 1,000,003, plus the number, plus 1,
    /// modulo 2^64.
    pub fn digest(&self) -> u64 {
        let mut digest = digested(0, &self.numbers[1..]);
        for frame in self.list.as_slice() {
            digest = digested(digest, &record_numbers(*frame));
        }
        digest
    }
}

// A record's numbers in the order of a line.
fn record_numbers(frame: Frame) -> [u64; RECORD_LEN] {
    [
        frame.name.place as u64,
        frame.name.len as u64,
        frame.position.dir.place as u64,
        frame.position.dir.len as u64,
        frame.position.file.place as u64,
        frame.position.file.len as u64,
        frame.position.line.0 as u64,
    ]
}

fn digested(start: u64, numbers: &[u64]) -> u64 {
    numbers.iter().fold(start, |digest, x| {
        digest
            .wrapping_mul(1_000_003)
            .wrapping_add(*x)
            .wrapping_add(1)
    })
}

/// Numbers in hexadecimal, a space before each.
#[derive(Clone, Copy)]
pub struct Words<'a>(pub &'a [u64]);

impl fmt::Display for Words<'_> {
    fn fmt<W: fmt::Write>(&self, f: &mut fmt::Formatter<W>) -> fmt::Result {
        for x in self.0 {
            write!(f, " {x:x}")?;
        }
        Ok(())
    }
}

impl fmt::Display for Answered {
    fn fmt<W: fmt::Write>(&self, f: &mut fmt::Formatter<W>) -> fmt::Result {
        write!(f, "{}", Words(&self.numbers))?;
        if !self.agrees_without_list {
            write!(
                f,
                "\n  and otherwise without a list, or the list is touched"
            )?;
        }
        Ok(())
    }
}
