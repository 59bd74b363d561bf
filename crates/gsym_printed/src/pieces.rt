//! Texts of the file and words of the user, piece by piece, so that none steers a terminal.
ghost use Rattle.std.specs.Prelude.{◌≡◌, ◌≤◌, ◌<◌, ◌∷◌, [], ◌++◌, length, slice_index};
ghost use Rattle.gsym_printed.specs.Page.{put};
ghost use Rattle.gsym_printed.specs.Pieces.{char_len, piece_len, is_control, is_c1, is_turn, is_mark, mark_number};
ghost use Rattle.gsym_printed.specs.Pieces.{escaped_byte, escaped_piece, piece_text, shown_text, is_bare, bare_len};

use crate::page::{put_byte, put_bytes, put_last_digits, put_str};
use crate::view::Form;

// The length of the character at the front, 0 where the bytes there are none.
#[tactic(auto, unfolding(crate::specs::Pieces::char_len))]
fn char_len(bytes: &[u8]) -> usize
    ensures within { result ≤ length bytes.now }
    ensures value { result ≡ char_len bytes.now }
{
    let Some(first) = bytes.first() else {
        return 0;
    };
    let n = usize::from(gsym_strtab::sequence_len(*first));
    if n <= bytes.len() && gsym_strtab::is_utf8(&bytes[..n]) {
        n
    } else {
        0
    }
}

// The length of the piece at the front, of bytes that there are: no type of the kit says so of a slice.
fn piece_len(bytes: &[u8]) -> usize
    requires { 0 < length bytes.now }
    ensures some { 0 < result }
    ensures within { result ≤ length bytes.now }
    ensures value { result ≡ piece_len bytes.now }
{
    char_len(bytes).max(1)
}

// A control byte.
fn is_control(byte: u8) -> bool
    ensures { result ≡ is_control byte }
{
    byte < 32 || (byte >= 127 && byte < 160)
}

// A C1 control of two bytes.
fn is_c1(first: u8, second: u8) -> bool
    ensures { result ≡ is_c1 first second }
{
    first == 0xc2 && second < 0xa0
}

// A character that turns the direction of writing.
fn is_turn(first: u8, second: u8, third: u8) -> bool
    ensures { result ≡ is_turn first second third }
{
    first == 0xe2
        && ((second == 0x80 && third >= 0xaa && third <= 0xae)
            || (second == 0x81 && third >= 0xa6 && third <= 0xa9))
}

// What may not reach a terminal.
#[tactic(auto, unfolding(crate::specs::Pieces::is_mark))]
fn is_mark(piece: &[u8]) -> bool
    ensures { result ≡ is_mark piece.now }
{
    if piece.len() == 1 {
        is_control(piece[0])
    } else if piece.len() == 2 {
        is_c1(piece[0], piece[1])
    } else if piece.len() == 3 {
        is_turn(piece[0], piece[1], piece[2])
    } else {
        false
    }
}

// The number of such a character, which is a piece and no empty slice.
#[tactic(auto, unfolding(crate::specs::Pieces::mark_number))]
fn mark_number(piece: &[u8]) -> u64
    requires { 0 < length piece.now }
    ensures { result ≡ mark_number piece.now }
{
    if piece.len() == 1 {
        u64::from(piece[0])
    } else if piece.len() == 2 {
        u64::from(piece[1])
    } else if piece.len() == 3 {
        8192 + u64::from(piece[1].saturating_sub(128)) * 64
            + u64::from(piece[2].saturating_sub(128))
    } else {
        0
    }
}

// A single byte in JSON.
#[tactic(auto, using(crate::proofs::Put::putting), unfolding(crate::specs::Pieces::escaped_byte))]
fn put_escaped_byte(room: &mut [u8], at: usize, byte: u8) -> usize
    ensures { (room.new, result) ≡ put (room.old, at) (escaped_byte byte) }
{
    if byte >= 128 {
        return put_str(room, at, "\\ufffd");
    }
    if is_control(byte) {
        let at = put_str(room, at, "\\u");
        return put_last_digits(room, at, 4, u64::from(byte));
    }
    if byte == b'"' || byte == b'\\' {
        let at = put_byte(room, at, b'\\');
        return put_byte(room, at, byte);
    }
    put_byte(room, at, byte)
}

// A piece in JSON, which has a byte.
#[tactic(auto, using(crate::proofs::Put::putting), unfolding(crate::specs::Pieces::escaped_piece))]
fn put_escaped(room: &mut [u8], at: usize, piece: &[u8]) -> usize
    requires { 0 < length piece.now }
    ensures { (room.new, result) ≡ put (room.old, at) (escaped_piece piece.now) }
{
    if piece.len() == 1 {
        return put_escaped_byte(room, at, piece[0]);
    }
    if is_mark(piece) {
        let at = put_str(room, at, "\\u");
        return put_last_digits(room, at, 4, mark_number(piece));
    }
    put_bytes(room, at, piece)
}

// A piece in any form, which has a byte.
fn put_piece(room: &mut [u8], at: usize, form: Form, piece: &[u8]) -> usize
    requires { 0 < length piece.now }
    ensures { (room.new, result) ≡ put (room.old, at) (piece_text form piece.now) }
{
    match form {
        Form::Json => put_escaped(room, at, piece),
        Form::Lines | Form::Pretty => {
            if is_mark(piece) {
                put_str(room, at, "?")
            } else {
                put_bytes(room, at, piece)
            }
        }
    }
}

// A byte that is shown as it is.
#[tactic(auto, unfolding(crate::specs::Pieces::is_bare))]
fn is_bare(byte: u8) -> bool
    ensures { result ≡ is_bare byte }
{
    byte >= b' ' && byte < 127 && !(byte == b'"' || byte == b'\\')
}

// How many bytes at the front are shown as they are.
#[tactic(auto, unfolding(crate::specs::Pieces::bare_len))]
fn bare_len(bytes: &[u8]) -> usize
    ensures within { result ≤ length bytes.now }
    ensures value { result ≡ bare_len bytes.now }
{
    bytes.iter().take_while(|&&byte| is_bare(byte)).count()
}

// The front of a text, and the bytes after it: those that are shown as they are, at once, or a single piece. Its caller
// goes on while there are bytes.
#[tactic(auto, using(crate::proofs::Showing::shown_turn, crate::proofs::Bare::shown_bare))]
fn put_front<'a>(room: &mut [u8], at: usize, form: Form, bytes: &'a [u8]) -> (usize, &'a [u8])
    requires { 0 < length bytes.now }
    ensures text { put (room.new, result.0) (shown_text form result.1.now)
        ≡ put (room.old, at) (shown_text form bytes.now) }
    ensures shorter { length result.1.now < length bytes.now }
{
    let bare = bare_len(bytes);
    if bare > 0 {
        let (front, after) = bytes.split_at(bare);
        return (put_bytes(room, at, front), after);
    }
    let (piece, after) = bytes.split_at(piece_len(bytes));
    (put_piece(room, at, form, piece), after)
}

// All of a text.
#[tactic(auto, using(crate::proofs::Showing::shown_end))]
pub(crate) fn put_shown(room: &mut [u8], at: usize, form: Form, bytes: &[u8]) -> usize
    ensures { (room.new, result) ≡ put (room.old, at) (shown_text form bytes.now) }
{
    let mut at = at;
    let mut rest = bytes;
    while !rest.is_empty() {
        let (next, after) = put_front(room, at, form, rest);
        at = next;
        rest = after;
    }
    at
}
