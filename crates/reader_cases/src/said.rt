//! What a leaf answers, and how it stands on a line.
use std::fmt;

/// What a leaf answers. Numbers that an answer does not have are 0.
#[derive(Clone, Copy)]
pub enum Said {
    Value([u64; 4]),
    Unread,
    /// why a number doesn't read
    Short,
    Wide,
    /// a refusal's number
    Refused(u8),
    /// what the line machine's opcode did: a row or none, with the place after it; why there is no opcode
    NewRow([u64; 4]),
    NoRow([u64; 4]),
    End(usize),
    Stopped,
    UsedUp,
    /// the end of an item list, in either way
    NoItem,
    /// there is no leaf of this kind
    NoLeaf,
}

/// A tag and four numbers, in hexadecimal.
#[derive(Clone, Copy, PartialEq, Eq)]
pub struct Words {
    pub tag: char,
    pub numbers: [u64; 4],
}

impl Said {
    /// A value of two numbers.
    pub fn value(a: u64, b: u64) -> Said {
        Said::Value([a, b, 0, 0])
    }

    /// As it stands on a line.
    pub fn words(self) -> Words {
        let (tag, numbers) = match self {
            Said::Value(numbers) => ('v', numbers),
            Said::Unread => ('-', [0; 4]),
            Said::Short => ('s', [0; 4]),
            Said::Wide => ('w', [0; 4]),
            Said::Refused(number) => ('r', [number as u64, 0, 0, 0]),
            Said::NewRow(numbers) => ('n', numbers),
            Said::NoRow(numbers) => ('o', numbers),
            Said::End(next) => ('e', [0, 0, 0, next as u64]),
            Said::Stopped => ('x', [0; 4]),
            Said::UsedUp => ('z', [0; 4]),
            Said::NoItem => ('e', [0; 4]),
            Said::NoLeaf => ('?', [0; 4]),
        };
        Words { tag, numbers }
    }
}

impl fmt::Display for Words {
    fn fmt<W: fmt::Write>(&self, f: &mut fmt::Formatter<W>) -> fmt::Result {
        let tag = self.tag;
        let [a, b, c, d] = self.numbers;
        write!(f, "{tag} {a:x} {b:x} {c:x} {d:x}")
    }
}
