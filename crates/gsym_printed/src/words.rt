//! The words of an input, and the address that a word is.
ghost use Rattle.std.specs.Prelude.{◌≡◌, ◌≢◌, ◌≤◌, ◌<◌, ◌+◌, ◌↔◌, ◌∷◌, [], length, take, drop, IfSome, IfNone};
ghost use Rattle.gsym_printed.specs.Words.{parts, words, blank_count, word_len, digits_of, digit_of, hex_onto};
ghost use Rattle.gsym_printed.specs.Words.{address_of};

use gsym_types::Text;

// Whether a byte parts two words.
#[tactic(auto, unfolding(crate::specs::Words::parts))]
fn parts(byte: u8) -> bool
    ensures { result ≡ parts byte }
{
    matches!(byte, b' ' | b'\t' | b'\r' | b'\n')
}

// How many bytes at the front part words.
#[tactic(auto, unfolding(crate::specs::Words::blank_count))]
fn blank_count(bytes: &[u8]) -> usize
    ensures within { result ≤ length bytes.now }
    ensures value { result ≡ blank_count bytes.now }
{
    bytes.iter().take_while(|&&byte| parts(byte)).count()
}

// How many bytes the word at the front has.
#[tactic(auto, unfolding(crate::specs::Words::word_len))]
fn word_len(bytes: &[u8]) -> usize
    ensures within { result ≤ length bytes.now }
    ensures value { result ≡ word_len bytes.now }
{
    bytes.iter().take_while(|&&byte| !parts(byte)).count()
}

/// The first word of an input, as its place and length; `None` where there is none. The words that follow are those of
/// the bytes after it (RULES, "What the tools print").
#[tactic(auto, using(crate::proofs::Splitting::first_word, crate::proofs::Splitting::no_word))]
pub fn next_word(bytes: &[u8]) -> Option<Text>
    ensures some { IfSome result (λ w. words bytes.now
        ≡ take w.len (drop w.place bytes.now) ∷ words (drop w.len (drop w.place bytes.now))) }
    ensures within { IfSome result (λ w. (0 < w.len) × (w.place + w.len ≤ length bytes.now)) }
    ensures none { IfNone result (words bytes.now ≡ []) }
{
    let place = blank_count(bytes);
    let (_, rest) = bytes.split_at(place);
    let len = word_len(rest);
    if len == 0 {
        return None;
    }
    Some(Text { place, len })
}

fn digit(byte: u8) -> Option<u64>
    ensures small { IfSome result (λ d. d < 16) }
    ensures value { result ≡ digit_of byte }
{
    match byte {
        b'0'..=b'9' => Some(u64::from(byte - b'0')),
        b'A'..=b'F' => Some(u64::from(byte - b'A') + 10),
        b'a'..=b'f' => Some(u64::from(byte - b'a') + 10),
        _ => None,
    }
}

// A word without 0x or 0X before it.
fn digits(word: &[u8]) -> &[u8]
    ensures { result.now ≡ digits_of word.now }
{
    if word.len() >= 2 && word[0] == b'0' && (word[1] == b'x' || word[1] == b'X') {
        &word[2..]
    } else {
        word
    }
}

// The number of these digits; none where one is no digit, or it takes more than 64 bits.
#[tactic(auto, using(crate::proofs::Digits::digits))]
fn number(digits: &[u8]) -> Option<u64>
    ensures { result ≡ hex_onto 0 digits.now }
{
    let mut value = 0u64;
    for byte in digits {
        let digit = digit(*byte)?;
        if value >= 0x1000_0000_0000_0000 {
            return None;
        }
        value = value * 16 + digit;
    }
    Some(value)
}

/// The address that a word is: hexadecimal, with or without 0x or 0X, of 64 bits at most (RULES, "What the tools
/// print").
#[tactic(auto, unfolding(crate::specs::Words::address_of))]
pub fn address_of(word: &[u8]) -> Option<u64>
    ensures { result ≡ address_of word.now }
{
    let digits = digits(word);
    if digits.is_empty() {
        return None;
    }
    number(digits)
}
