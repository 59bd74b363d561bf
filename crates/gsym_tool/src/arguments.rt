//! The words of the command line as bytes: a word need not be UTF-8. Those of an @FILE stand in its place.
ghost use Rattle.std.specs.Prelude.{◌≡◌, ◌++◌, ◌∷◌, [], OnOk};

use super::files::{copy, read_more};
use super::trouble::Trouble;
use std::alloc::{AllocError, Global};
use std::env::{Env, FillError};
use std::fs::File;

// The most that an @FILE may have.
const MOST: usize = 1 << 24;

// One argument, or `None` past the last. The room doubles until it fits.
fn argument(rt: &HostRuntime, place: usize) -> Result<Option<Vec<u8>>, Trouble> {
    let mut size = 256usize;
    for _ in 0..32 {
        let mut room = vec![in rt.alloc(); 0u8; size]?;
        match rt.arg(place, &mut room) {
            Ok(len) => {
                room.truncate(len);
                return Ok(Some(room));
            }
            Err(FillError::NotPresent) => return Ok(None),
            Err(FillError::TooLong) => size = size.saturating_mul(2),
        }
    }
    Err(Trouble::Memory)
}

/// One item more.
pub fn push<T: Drop>(list: &mut Vec<T>, item: T) -> Result<(), AllocError>
    ensures { OnOk result (list.new.items ≡ list.old.items ++ item ∷ []) }
{
    list.push(item)?;
    Ok(())
}

// What is read of a text with words in it.
#[derive(Drop)]
struct Reading {
    // The word so far; `None` between two words.
    word: Option<Vec<u8>>,
    // The quote that is open.
    quote: Option<u8>,
    // Whether the byte before is a backslash.
    is_kept: bool,
}

fn parts(byte: u8) -> bool {
    matches!(byte, b' ' | b'\t'..=b'\r')
}

impl Reading {
    // A byte of a word.
    fn byte(&mut self, alloc: Global, byte: u8) -> Result<(), AllocError> {
        if self.is_kept {
            self.is_kept = false;
            return self.keep(alloc, byte);
        }
        if byte == b'\\' {
            self.is_kept = true;
            return Ok(());
        }
        match self.quote {
            Some(quote) if byte == quote => self.quote = None,
            None if byte == b'\'' || byte == b'"' => {
                self.quote = Some(byte);
                self.begin(alloc);
            }
            _ => return self.keep(alloc, byte),
        }
        Ok(())
    }

    // There is a word from here on, if as yet an empty one.
    fn begin(&mut self, alloc: Global) {
        if self.word.is_none() {
            self.word = Some(Vec::new(alloc));
        }
    }

    fn keep(&mut self, alloc: Global, byte: u8) -> Result<(), AllocError> {
        let mut word = self.word.take().unwrap_or(Vec::new(alloc));
        match word.push(byte) {
            Ok(()) => {}
            Err(_) => return Err(AllocError),
        }
        self.word = Some(word);
        Ok(())
    }
}

// The arguments in a text: parted by white space; quotes keep it, and a backslash keeps the byte behind it.
fn push_words(alloc: Global, words: &mut Vec<Vec<u8>>, text: &[u8]) -> Result<(), AllocError> {
    let mut reading = Reading {
        word: None,
        quote: None,
        is_kept: false,
    };
    for byte in text {
        if !parts(*byte) || reading.quote.is_some() || reading.is_kept {
            reading.byte(alloc, *byte)?;
        } else if let Some(word) = reading.word.take() {
            push(words, word)?;
        }
    }
    if reading.is_kept {
        reading.keep(alloc, b'\\')?;
    }
    match reading.word {
        Some(word) => push(words, word),
        None => Ok(()),
    }
}

// The text of an @FILE; none where it can't be opened. No word can have a zero byte.
fn file_text(rt: &HostRuntime, word: &[u8]) -> Result<Option<Vec<u8>>, Trouble> {
    let Some((first, name)) = word.split_first() else {
        return Ok(None);
    };
    if *first != b'@' {
        return Ok(None);
    }
    let Ok(path) = str::from_utf8(name) else {
        return Ok(None);
    };
    let Ok(file) = File::open(rt, path) else {
        return Ok(None);
    };
    let mut text = Vec::new(rt.alloc());
    if let Err(error) = read_more(&file, MOST as u64 + 1, &mut text) {
        return Err(Trouble::Unread(copy(rt.alloc(), word)?, error));
    }
    if text.len() > MOST {
        return Err(Trouble::File(copy(rt.alloc(), word)?, "more than 16 MiB of arguments"));
    }
    if text.contains(&0) {
        return Err(Trouble::File(copy(rt.alloc(), word)?, "a zero byte among the arguments"));
    }
    Ok(Some(text))
}

/// All arguments but the program's name.
pub fn arguments(rt: &HostRuntime) -> Result<Vec<Vec<u8>>, Trouble> {
    let mut words = Vec::new(rt.alloc());
    for place in 1..usize::MAX {
        let Some(word) = argument(rt, place)? else {
            break;
        };
        match file_text(rt, &word)? {
            Some(text) => push_words(rt.alloc(), &mut words, &text)?,
            None => push(&mut words, word)?,
        }
    }
    Ok(words)
}
