//! Texts at a place of lent bytes. Each function writes what fits, and answers the place after the text, also where
//! that lies past the end; the place stays at the largest number.
ghost use Rattle.std.specs.Prelude.{◌≡◌, ◌∷◌, [], ◌+◌, ◌-◌, ◌^◌, ◌≤◌, ◌<◌, length, min, max, decimal};
ghost use Rattle.gsym_printed.specs.Page.{put, digit_byte, last_digits, digit_count, wide_hex, hex};

// The place after a byte. It stays at the largest number, which lies past all lent bytes.
fn next_place(room: &[u8], at: usize) -> usize
    ensures { result ≡ min (at + 1) (max (length room.now) (2 ^ 64 - 1)) }
{
    if at < room.len() {
        at + 1
    } else {
        at.saturating_add(1)
    }
}

// One byte.
#[tactic(auto, unfolding(crate::specs::Page::put, crate::specs::Page::with_byte))]
pub(crate) fn put_byte(room: &mut [u8], at: usize, byte: u8) -> usize
    ensures { (room.new, result) ≡ put (room.old, at) (byte ∷ []) }
{
    let next = next_place(room, at);
    if at < room.len() {
        room[at] = byte;
    }
    next
}

// All bytes of a slice.
#[tactic(auto, using(crate::proofs::Put::put_more, crate::proofs::Put::put_end))]
pub(crate) fn put_bytes(room: &mut [u8], at: usize, bytes: &[u8]) -> usize
    ensures { (room.new, result) ≡ put (room.old, at) bytes.now }
{
    let mut at = at;
    for byte in bytes {
        at = put_byte(room, at, *byte);
    }
    at
}

pub(crate) fn put_str(room: &mut [u8], at: usize, text: &str) -> usize
    ensures { (room.new, result) ≡ put (room.old, at) text.now }
{
    put_bytes(room, at, text.as_bytes())
}

// A number in decimal digits.
#[tactic(auto, using(crate::proofs::Put::decimal_one, crate::proofs::Put::put_decimal_more))]
pub(crate) fn put_decimal(room: &mut [u8], at: usize, n: u64) -> usize
    ensures { (room.new, result) ≡ put (room.old, at) (decimal n) }
{
    if n < 10 {
        return put_byte(room, at, b'0' + n as u8);
    }
    let at = put_decimal(room, at, n / 10);
    put_byte(room, at, b'0' + (n % 10) as u8)
}

// A digit below 16, which its caller gets by a remainder: no type has these 16 numbers.
fn digit_byte(digit: u8) -> u8
    requires { digit < 16 }
    ensures { result ≡ digit_byte digit }
{
    if digit < 10 {
        b'0' + digit
    } else {
        b'a' - 10 + digit
    }
}

// The last digits of a number, so many.
#[tactic(auto, using(crate::proofs::Put::putting), unfolding(crate::specs::Page::last_digits))]
pub(crate) fn put_last_digits(room: &mut [u8], at: usize, count: u8, n: u64) -> usize
    ensures { (room.new, result) ≡ put (room.old, at) (last_digits count n) }
{
    if count == 0 {
        return at;
    }
    let at = put_last_digits(room, at, count - 1, n / 16);
    put_byte(room, at, digit_byte((n % 16) as u8))
}

// How many digits a number has.
#[tactic(auto, unfolding(crate::specs::Page::digit_count))]
fn digit_count(most: u8, n: u64) -> u8
    ensures within { result ≤ most }
    ensures value { result ≡ digit_count most n }
{
    if most == 0 {
        return 0;
    }
    if n < 16 {
        return 1;
    }
    1 + digit_count(most - 1, n / 16)
}

// An address with 16 digits.
#[tactic(auto, using(crate::proofs::Put::putting), unfolding(crate::specs::Page::wide_hex))]
pub(crate) fn put_wide_hex(room: &mut [u8], at: usize, n: u64) -> usize
    ensures { (room.new, result) ≡ put (room.old, at) (wide_hex n) }
{
    let at = put_str(room, at, "0x");
    put_last_digits(room, at, 16, n)
}

// An address with as many digits as it has.
#[tactic(auto, using(crate::proofs::Put::putting), unfolding(crate::specs::Page::hex))]
pub(crate) fn put_hex(room: &mut [u8], at: usize, n: u64) -> usize
    ensures { (room.new, result) ≡ put (room.old, at) (hex n) }
{
    let at = put_str(room, at, "0x");
    put_last_digits(room, at, digit_count(16, n), n)
}
