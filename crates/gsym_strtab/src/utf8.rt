//! Whether bytes are UTF-8 (RULES, "Strings"): the length of a sequence by the table, then its following bytes.
ghost use Rattle.std.specs.Prelude.{◌≡◌, ◌≢◌, ◌<◌, ◌↔◌, length, drop, IfSome, IfNone, IsTrue, IsUtf8};
ghost use Rattle.gsym_strtab.specs.Utf8.{utf8, within, tail};
ghost use Rattle.gsym_strtab.specs.Steps.{second, char_len};

use super::lengths::sequence_len;
use super::scan::{is_between, run_end};

/// Whether all of the bytes are UTF-8 (RULES, "Strings"): as the grammar of RFC 3629 has it, and as std has it.
pub fn is_utf8(s: &[u8]) -> bool
    ensures exact { result ≡ utf8 s.now }
    ensures scalars { IsTrue result ↔ IsUtf8 s.now }
{
    let mut i = 0;
    // A turn takes a run of ASCII and a character behind it: it is no element of a slice.
    while i < s.len() {
        let j = run_end(s, i, 0x7f);
        if s.len() <= j {
            return true;
        }
        let Some(n) = char_len(s, j) else {
            return false;
        };
        i = j + n;
    }
    true
}

// The length of the character at `at`, or `None` where the bytes there are none: no sequence starts so, it is cut off
// by the end, or a following byte is wrong. Its callers ask inside the slice.
#[inline(always)]
pub(crate) fn char_len(s: &[u8], at: usize) -> Option<usize>
    requires { at < length s.now }
    ensures some { IfSome result (λ n. (n ≡ char_len (drop at s.now)) × (n ≢ 0)) }
    ensures none { IfNone result (0 ≡ char_len (drop at s.now)) }
{
    let first = s[at];
    let n = usize::from(sequence_len(first));
    // Inside this test: asked first, 0 cost names of two-byte letters 1.06 of the instructions.
    if n < 2 {
        if n == 0 {
            return None;
        }
        return Some(n);
    }
    if s.len() - at < n {
        return None;
    }
    // Of two bytes the second may be any that may follow: only longer sequences shut some out.
    if n < 3 {
        let follows = is_tail(s[at + 1]);
        return if follows { Some(n) } else { None };
    }
    if !is_second(first, s[at + 1]) {
        return None;
    }
    if !is_tail(s[at + 2]) {
        return None;
    }
    if n < 4 {
        return Some(n);
    }
    if !is_tail(s[at + 3]) {
        return None;
    }
    Some(n)
}

// Whether a byte may stand second in a sequence of two or more. Other ranges than 80 to bf shut out overlong forms,
// surrogates and numbers above 10ffff.
#[tactic(auto, unfolding(crate::specs::Steps::second))]
fn is_second(first: u8, b: u8) -> bool
    ensures { result ≡ within (second first) b }
{
    match first {
        0xe0 => is_between(0xa0, 0xbf, b),
        0xed => is_between(0x80, 0x9f, b),
        0xf0 => is_between(0x90, 0xbf, b),
        0xf4 => is_between(0x80, 0x8f, b),
        _ => is_tail(b),
    }
}

// Whether a byte may stand third or fourth.
fn is_tail(b: u8) -> bool
    ensures { result ≡ within tail b }
{
    is_between(0x80, 0xbf, b)
}
