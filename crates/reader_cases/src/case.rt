//! A case on its line: `KIND BYTES P Q R TAG A B C D`, parted by single spaces, bytes and numbers in hexadecimal.
use crate::said::Words;
use anyhow::{Result, bail};
use std::alloc::Global;

/// A case: the leaf's letter, the bytes and numbers that it is asked with, and the answer that is expected.
#[derive(Drop)]
pub struct Case {
    pub kind: char,
    pub bytes: Vec<u8>,
    pub p: u64,
    pub q: u64,
    pub r: u64,
    pub expected: Words,
}

// `.` stands for no bytes.
fn parse_bytes(alloc: Global, word: &str) -> Result<Vec<u8>> {
    if word == "." {
        return Ok(Vec::new(alloc));
    }
    Ok(hex::decode(alloc, word)?)
}

fn parse_number(word: &str) -> Result<u64> {
    Ok(u64::from_str_radix(word, 16)?)
}

impl Case {
    /// A case from its line; an error where a word is missing or doesn't read.
    pub fn parse(alloc: Global, line: &str) -> Result<Case> {
        let words: Vec<&str> = line.split(' ').collect(alloc)?;
        let [kind, bytes, p, q, r, tag, a, b, c, d] = words.as_slice() else {
            bail!("{} words", words.len());
        };
        Ok(Case {
            kind: kind.parse()?,
            bytes: parse_bytes(alloc, bytes)?,
            p: parse_number(p)?,
            q: parse_number(q)?,
            r: parse_number(r)?,
            expected: Words {
                tag: tag.parse()?,
                numbers: [
                    parse_number(a)?,
                    parse_number(b)?,
                    parse_number(c)?,
                    parse_number(d)?,
                ],
            },
        })
    }
}
