//! The words of a line (RULES, "A file as text").
ghost use Rattle.std.specs.Prelude.{◌≡◌, ◌<◌, ◌≤◌, ◌+◌, ◌*◌, length, option_map, option_and_then};
ghost use Rattle.std.specs.Prelude.{None, IfSome, IfNone, OnOk, [], ◌∷◌, ◌++◌};
ghost use Rattle.std.specs.List.{prefix_len};
ghost use Rattle.hex.specs.Hex.{hex_digit_value};
ghost use Rattle.gsym_form.specs.Words.{is_blank, next_word, is_over, is_text, word, goes_on, digits_of, number_of};
ghost use Rattle.gsym_form.specs.Words.{number, text, hex, open_words, over, most_short};
ghost use Rattle.gsym_form.specs.Words.{open_text, nothing, slash, behind_byte};
ghost use Rattle.gsym_form.specs.Taken.{Takes, TakesWord, TellsOf};

use super::wrong::{Problem, Wrong};
use hex::FromHexError;
use std::alloc::{AllocError, Global};

/// One thing more.
pub(crate) fn add<T: Drop>(list: &mut Vec<T>, thing: T) -> Result<(), AllocError>
    ensures { OnOk result (list.new.items ≡ list.old.items ++ thing ∷ []) }
{
    list.push(thing)?;
    Ok(())
}

/// What is left of a line.
#[derive(Clone, Copy)]
pub(crate) struct Line<'a> {
    pub rest: &'a [u8],
}

fn is_blank(byte: u8) -> bool
    ensures { result ≡ is_blank byte }
{
    matches!(byte, b' ' | b'\t' | b'\r')
}

// The value of a hexadecimal digit.
fn digit(byte: u8) -> Option<u8>
    ensures { result ≡ hex_digit_value byte }
{
    match byte {
        b'0'..=b'9' => Some(byte - b'0'),
        b'a'..=b'f' => Some(byte - b'a' + 10),
        b'A'..=b'F' => Some(byte - b'A' + 10),
        _ => None,
    }
}

// The byte of two hexadecimal digits.
fn byte_of(high: u8, low: u8) -> Option<u8>
    ensures { result
        ≡ option_and_then (λ h. option_map (λ l. h * 16 + l) (hex_digit_value low)) (hex_digit_value high) }
{
    Some(digit(high)? * 16 + digit(low)?)
}

// The number of digits to a base, where it is not above a limit.
#[tactic(auto, using(crate::proofs::Digits::digits))]
fn digits(word: &[u8], base: u64, most: u64) -> Option<u64>
    ensures { result ≡ digits_of base most word.now }
{
    let mut number: u64 = 0;
    for byte in word {
        let value = u64::from(digit(*byte)?);
        if value >= base {
            return None;
        }
        number = number.checked_mul(base)?.checked_add(value)?;
    }
    if word.is_empty() || number > most {
        None
    } else {
        Some(number)
    }
}

// The number that a word is: decimal or, behind `0x`, hexadecimal.
#[tactic(auto, unfolding(crate::specs::Words::number_of))]
fn number_of(word: &[u8], most: u64) -> Option<u64>
    ensures { result ≡ number_of most word.now }
{
    match word.strip_prefix(b"0x".as_slice()) {
        Some(rest) => digits(rest, 16, most),
        None => digits(word, 10, most),
    }
}

// What stands behind a backslash in a text: the byte, and the rest.
#[tactic(auto, unfolding(crate::specs::Words::open_text))]
fn escaped(rest: &[u8]) -> Option<(u8, &[u8])>
    ensures some { IfSome result (λ r. open_text slash rest.now ≡ behind_byte r.0 (open_text nothing r.1.now)) }
    ensures shorter { IfSome result (λ r. length r.1.now < length rest.now) }
    ensures none { IfNone result (open_text slash rest.now ≡ None) }
{
    let (first, rest) = rest.split_first()?;
    match *first {
        b'"' | b'\\' => Some((*first, rest)),
        b'x' => {
            let (high, rest) = rest.split_first()?;
            let (low, rest) = rest.split_first()?;
            let byte = byte_of(*high, *low)?;
            if byte == 0 { None } else { Some((byte, rest)) }
        }
        _ => None,
    }
}

// The text whose quote is open, and the rest behind the quote that closes it.
#[tactic(auto, using(crate::proofs::Texts::texts))]
fn open_text(alloc: Global, bytes: &[u8]) -> Result<(Vec<u8>, &[u8]), Problem>
    ensures { TellsOf (λ r. (r.0.items, r.1.now)) result (open_words bytes.now) }
{
    let mut text = Vec::new(alloc);
    let mut rest = bytes;
    'bytes: while let Some((byte, after)) = rest.split_first() {
        rest = after;
        match *byte {
            b'"' => return Ok((text, rest)),
            b'\\' => {
                let (byte, after) = escaped(rest).ok_or(Wrong::Text)?;
                rest = after;
                add(&mut text, byte)?;
            }
            0..=0x1f | 0x7f => return Err(Problem::Wrong(Wrong::Text)),
            byte => add(&mut text, byte)?,
        }
    }
    Err(Problem::Wrong(Wrong::Text))
}

// How many bytes at the front are blanks.
fn blank_count(bytes: &[u8]) -> usize
    ensures within { result ≤ length bytes.now }
    ensures value { result ≡ prefix_len is_blank bytes.now }
{
    bytes.iter().take_while(|&&byte| is_blank(byte)).count()
}

// How many bytes the word at the front has.
fn word_len(bytes: &[u8]) -> usize
    ensures within { result ≤ length bytes.now }
    ensures value { result ≡ prefix_len goes_on bytes.now }
{
    bytes.iter().take_while(|&&byte| !is_blank(byte)).count()
}

impl<'a> Line<'a> {
    // From the next word on.
    #[tactic(auto, unfolding(crate::specs::Words::next_word))]
    fn next(&self) -> &'a [u8]
        ensures { result.now ≡ next_word self.now.rest.now }
    {
        let (_blanks, next) = self.rest.split_at(blank_count(self.rest));
        next
    }

    /// Whether no word is left.
    #[tactic(auto, unfolding(crate::specs::Words::is_over))]
    pub(crate) fn is_over(&self) -> bool
        ensures { result ≡ is_over self.now.rest.now }
    {
        match self.next().first() {
            Some(byte) => *byte == b'#',
            None => true,
        }
    }

    /// Whether a text is next.
    #[tactic(auto, unfolding(crate::specs::Words::is_text))]
    pub(crate) fn is_text(&self) -> bool
        ensures { result ≡ is_text self.now.rest.now }
    {
        self.next().first() == Some(&b'"')
    }

    /// The next word, where there is one and it is no text.
    #[tactic(auto, unfolding(crate::specs::Words::word))]
    pub(crate) fn word(&mut self) -> Option<&'a [u8]>
        ensures { TakesWord (option_map (λ w. w.now) result) self.old.rest.now self.new.rest.now
            (word self.old.rest.now) }
    {
        if self.is_over() || self.is_text() {
            return None;
        }
        let next = self.next();
        let (word, rest) = next.split_at(word_len(next));
        self.rest = rest;
        Some(word)
    }

    /// The next word, which has to be a number that is not above a limit.
    #[tactic(auto, unfolding(crate::specs::Words::number))]
    pub(crate) fn number(&mut self, most: u64) -> Result<u64, Problem>
        ensures { Takes (λ n. n) result self.new.rest.now (number most self.old.rest.now) }
    {
        let word = self.word().ok_or(Wrong::Number)?;
        Ok(number_of(word, most).ok_or(Wrong::Number)?)
    }

    /// The next word, which has to be a number of 32 bits.
    pub(crate) fn short_number(&mut self) -> Result<u32, Problem>
        ensures { Takes (λ n. n) result self.new.rest.now (number most_short self.old.rest.now) }
    {
        Ok(self.number(u64::from(u32::MAX))? as u32)
    }

    /// The next word, which has to be a text.
    #[tactic(auto, unfolding(crate::specs::Words::text, crate::specs::Words::is_text))]
    pub(crate) fn text(&mut self, alloc: Global) -> Result<Vec<u8>, Problem>
        ensures { Takes (λ t. t.items) result self.new.rest.now (text self.old.rest.now) }
    {
        let Some((b'"', rest)) = self.next().split_first() else {
            return Err(Problem::Wrong(Wrong::Text));
        };
        let (text, rest) = open_text(alloc, rest)?;
        match rest.first() {
            Some(byte) if !is_blank(*byte) => Err(Problem::Wrong(Wrong::Text)),
            _ => {
                self.rest = rest;
                Ok(text)
            }
        }
    }

    /// The bytes whose hexadecimal digits are the next word; none where no word is left.
    #[tactic(auto, unfolding(crate::specs::Words::hex))]
    pub(crate) fn hex(&mut self, alloc: Global) -> Result<Vec<u8>, Problem>
        ensures { Takes (λ t. t.items) result self.new.rest.now (hex self.old.rest.now) }
    {
        if self.is_text() {
            return Err(Problem::Wrong(Wrong::Hex));
        }
        match hex::decode(alloc, self.word().unwrap_or(b"".as_slice())) {
            Ok(bytes) => Ok(bytes),
            Err(FromHexError::OutOfMemory) => Err(Problem::Memory),
            Err(_) => Err(Problem::Wrong(Wrong::Hex)),
        }
    }

    /// That no word is left.
    #[tactic(auto, unfolding(crate::specs::Words::over))]
    pub(crate) fn over(&self) -> Result<(), Problem>
        ensures { TellsOf (λ _. tt) result (over self.now.rest.now) }
    {
        if self.is_over() {
            Ok(())
        } else {
            Err(Problem::Wrong(Wrong::TooMany))
        }
    }
}
