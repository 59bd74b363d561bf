//! The strings of a GSYM file's string table, and the part of the file that holds one (RULES, "Strings"). Which offsets
//! are asked for, and what is refused, are left to the callers.
#![tactic(auto)]

mod laws;
mod lengths;
mod scan;
mod utf8;

ghost use Rattle.std.specs.Prelude.{◌≡◌, ◌≢◌, ◌+◌, ◌<◌, ◌≤◌, ◌↔◌, [], length, take, drop, All, IfSome, IsSome, IsNone};
ghost use Rattle.std.specs.Prelude.{IsSomeAnd, IsUtf8, option_map};
ghost use Rattle.gsym_strtab.specs.Strings.{part_of, text_in, name_in, text_at, name_at, bytes_from, EndsBeforeZero};
ghost use Rattle.gsym_strtab.specs.Strings.{StartsAt};

use gsym_types::{StrOffset, Text};
pub use laws::utf8_bounds;
pub use lengths::sequence_len;
use scan::{ascii_end, ascii_run_end, run_end};
use utf8::char_len;
pub use utf8::is_utf8;

/// The part of the file that is the string table (RULES, "Header and tables").
#[derive(Clone, Copy, Debug, PartialEq, Eq, Default, Hash)]
pub struct StrTable {
    /// Where it starts, in bytes from the start of the file.
    pub place: usize,
    /// How many bytes it has.
    pub size: usize,
}

/// The directory or file string at an offset of the string table, which need not be UTF-8 (RULES, "Strings"). `None`
/// where the table is no part of the file, the offset is not inside it, or no zero byte follows inside it.
pub fn text_at(file: &[u8], table: StrTable, offset: StrOffset) -> Option<Text>
    ensures exact { result ≡ text_at file.now table offset }
    ensures place { IfSome result (λ t. t.place ≡ table.place + offset.0) }
    ensures string { IfSome result (λ t. EndsBeforeZero (bytes_from file.now table offset) t.len) }
    ensures within { IfSome result (λ t. t.place + t.len < length file.now) }
    ensures none { IsNone result ↔ All (λ b. b ≢ 0) (bytes_from file.now table offset) }
{
    let at = offset.0 as usize;
    let strings = part(file, table.place, table.size)?;
    let len = text_in(strings, at)?;
    let start = table.place + at;
    Some(Text { place: start, len })
}

/// The name at an offset of the string table: a string that is UTF-8 (RULES, "Strings"). `None` where `text_at` has
/// none, and where the string is not UTF-8.
// Beside `text_at`, with another reader of the table's bytes: one function over both would take it as a closure.
// That was not tried.
pub fn name_at(file: &[u8], table: StrTable, offset: StrOffset) -> Option<Text>
    ensures exact { result ≡ name_at file.now table offset }
    ensures string { IfSome result (λ t. text_at file.now table offset ≡ Some t) }
    ensures some { IsSome result
        ↔ IsSomeAnd (text_at file.now table offset) (λ t. IsUtf8 (part_of file.now t.place t.len)) }
{
    let at = offset.0 as usize;
    let names = part(file, table.place, table.size)?;
    let len = name_in(names, at)?;
    let begin = table.place + at;
    Some(Text { place: begin, len })
}

/// That part of the lent file itself, no copy, or an empty part where place and length don't fit (RULES, "Strings").
#[tactic(auto, unfolding(crate::specs::Strings::part_of))]
pub fn text(file: &[u8], t: Text) -> &[u8]
    ensures exact { result.now ≡ part_of file.now t.place t.len }
    ensures itself { t.place + t.len ≤ length file.now → StartsAt file.entry t.place result }
    ensures empty { length file.now < t.place + t.len → result.now ≡ [] }
{
    part(file, t.place, t.len).unwrap_or(&file[..0])
}

/// That part of the file as a name, or `None` where place and length don't fit or the part is not UTF-8 (RULES,
/// "Strings").
#[tactic(auto, unfolding(crate::specs::Strings::part_of))]
pub fn name(file: &[u8], t: Text) -> Option<&str>
    ensures bytes { IfSome result (λ name. name.now ≡ part_of file.now t.place t.len) }
    ensures some { IsSome result
        ↔ (t.place + t.len ≤ length file.now) × IsUtf8 (part_of file.now t.place t.len) }
{
    str::from_utf8(part(file, t.place, t.len)?).ok()
}

// The `len` bytes of the file from `place` on. Indexed: `get` promises equal bytes, but not where they stand.
#[tactic(auto, unfolding(crate::specs::Strings::part_of))]
fn part(file: &[u8], place: usize, len: usize) -> Option<&[u8]>
    ensures fits { IsSome result ↔ (place + len ≤ length file.now) }
    ensures bytes { IfSome result (λ part. part.now ≡ take len (drop place file.now)) }
    ensures itself { IfSome result (λ part. StartsAt file.entry place part) }
{
    if place <= file.len() && len <= file.len() - place {
        Some(&file[place..place + len])
    } else {
        None
    }
}

// The length of the string at an offset of the table's bytes.
#[tactic(auto, using(crate::proofs::Runs::text_outside, crate::proofs::Runs::text_endless, crate::proofs::Runs::text_ended))]
fn text_in(strings: &[u8], at: usize) -> Option<usize>
    ensures { result ≡ text_in strings.now at }
{
    if strings.len() <= at {
        return None;
    }
    let end = run_end(strings, at, 0xff);
    if strings.len() <= end {
        return None;
    }
    Some(end - at)
}

// The length of the name at an offset of the table's bytes. Most names are ASCII alone and end here, so that what a
// name beyond ASCII needs stands in a function of its own (DECISIONS, D33).
#[tactic(auto, using(crate::proofs::Names::name_outside, crate::proofs::Names::name_endless, crate::proofs::Names::name_ended, crate::proofs::Names::name_broken, crate::proofs::Names::name_on))]
fn name_in(strings: &[u8], start: usize) -> Option<usize>
    ensures { result ≡ name_in strings.now start }
{
    if strings.len() <= start {
        return None;
    }
    let j = ascii_end(strings, start);
    if strings.len() <= j {
        return None;
    }
    if strings[j] == 0 {
        return Some(j - start);
    }
    let end = name_end(strings, j)?;
    Some(end - start)
}

// Where the name ends that starts at an offset of the table's bytes. One pass looks for the zero byte and judges UTF-8:
// no character but the zero byte itself has a zero byte in it. `is_utf8` takes the same turns, but there a zero byte is
// a character and the end no fault: one function over both would ask a flag at each.
#[inline(never)]
fn name_end(strings: &[u8], at: usize) -> Option<usize>
    ensures { result ≡ option_map (λ n. at + n) (name_in strings.now at) }
{
    let mut i = at;
    // A turn takes a run of ASCII, if one stands here, and a character behind it: it is no element of a slice.
    while i < strings.len() {
        if strings[i] < 0x80 {
            i = ascii_run_end(strings, i);
            if strings.len() <= i {
                return None;
            }
            if strings[i] == 0 {
                return Some(i);
            }
        }
        i += char_len(strings, i)?;
    }
    None
}
