//! The header's numbers and the length of the file, and whether counts, places and lengths are of 32 bits (RULES,
//! "Writing a file"). Sums saturate where nothing bounds them, so that none wraps whatever is given.
ghost use Rattle.std.specs.Prelude.{◌≡◌, ◌+◌, ◌*◌, ◌≤◌, false, Some, None, map, length, nat_lt, IfSome, IfNone};
ghost use Rattle.std.specs.Prelude.{if◌then◌else◌};
ghost use Rattle.std.specs.Bool.{OnTrue, OnFalse};
ghost use Rattle.std.specs.Int.{next_multiple_of};
ghost use Rattle.std.specs.List.{list_all};
ghost use Rattle.gsym_parser.specs.Items.{item_view};
ghost use Rattle.gsym_layout.specs.Layout.{base_of, least_size, places_from};
ghost use Rattle.gsym_layout.specs.Writable.{IsOf32};
ghost use Rattle.gsym_writer.specs.Ends.{items_len, end_from, told_len};
ghost use Rattle.gsym_writer.specs.Parts.{addresses_less};
ghost use Rattle.gsym_writer.specs.Planned.{IsHead, IsPlan};
ghost use Rattle.gsym_writer.specs.View.{entry_view, entries_view, view};
ghost use Rattle.gsym_writer.specs.Writing.{is_of_32, lengths_fit, counts_of_32, all_of_32};

use super::{Address, Content, Entry, Item};
use gsym_parser::HEADER_LEN;

// The header's numbers (RULES, "Header and tables").
#[derive(Clone, Copy)]
pub(crate) struct Head {
    pub offset_size: u8,
    pub base: Address,
    pub count: u32,
    pub strings_place: u32,
    pub strings_size: u32,
}

// What is known of a file before it is written.
#[derive(Clone, Copy)]
pub(crate) struct Plan {
    pub head: Head,
    // How many bytes it has, `usize::MAX` where it has more.
    pub len: usize,
}

// The largest place, count or length.
const MOST: usize = u32::MAX as usize;

// The first address, 0 where there is none.
#[tactic(auto, unfolding(gsym_layout::specs::Layout::base_of))]
fn base_of(entries: &[Entry<'_>]) -> Address
    ensures { result.0 ≡ base_of (entries_view entries.now) }
{
    match entries.first() {
        Some(entry) => entry.addr,
        None => Address(0),
    }
}

// Whether each address less the base is at most a number.
fn have_room(entries: &[Entry<'_>], base: Address, most: u64) -> bool
    ensures { result ≡ list_all (λ n. nat_lt n (most + 1)) (addresses_less base.0 (entries_view entries.now)) }
{
    for entry in entries {
        if entry.addr.0.saturating_sub(base.0) > most {
            return false;
        }
    }
    true
}

// The smallest offset size that has room for each address less the base.
#[tactic(auto, unfolding(gsym_layout::specs::Layout::least_size))]
fn least_size(entries: &[Entry<'_>], base: Address) -> u8
    ensures value { result ≡ least_size (addresses_less base.0 (entries_view entries.now)) }
    ensures most { result ≤ 8 }
{
    if have_room(entries, base, 0xff) {
        1
    } else if have_room(entries, base, 0xffff) {
        2
    } else if have_room(entries, base, 0xffff_ffff) {
        4
    } else {
        8
    }
}

// Whether the length of each item is of 32 bits.
fn lengths_fit(items: &[Item<'_>]) -> bool
    ensures { result ≡ list_all (λ item. is_of_32 (length item.bytes)) (map item_view items.now) }
{
    for item in items {
        if item.bytes.len() > MOST {
            return false;
        }
    }
    true
}

// Whether that is so of all entries.
fn all_lengths_fit(entries: &[Entry<'_>]) -> bool
    ensures { result ≡ list_all lengths_fit (entries_view entries.now) }
{
    for entry in entries {
        if !lengths_fit(entry.items) {
            return false;
        }
    }
    true
}

// How many bytes an entry's data have, `usize::MAX` where they have more.
pub(crate) fn data_len(items: &[Item<'_>]) -> usize
    ensures { result ≡ told_len (16 + items_len (map item_view items.now)) }
{
    let mut len: usize = 16;
    for item in items {
        len = len.saturating_add(8).saturating_add(item.bytes.len());
    }
    len
}

// Where the data of entries end that begin at a place, `usize::MAX` where that is above it. None where the place of one
// is not of 32 bits.
fn data_end(start: usize, entries: &[Entry<'_>]) -> Option<usize>
    ensures { result ≡ (if list_all is_of_32 (places_from start (entries_view entries.now))
        then Some (told_len (end_from start (entries_view entries.now))) else None) }
{
    let mut end = start;
    for entry in entries {
        if end > MOST {
            return None;
        }
        let place = end.next_multiple_of(4);
        if place > MOST {
            return None;
        }
        end = place.saturating_add(data_len(entry.items));
    }
    Some(end)
}

// Where the string table stands, by counts and the offset size.
fn strings_start(entries: usize, size: usize, files: usize) -> usize
    requires entries { IsOf32 entries }
    requires size { size ≤ 8 }
    requires files { IsOf32 files }
    ensures { result ≡ next_multiple_of (48 + entries * size) 4 + entries * 4 + 4 + files * 8 }
{
    let offsets = (HEADER_LEN + entries * size).next_multiple_of(4);
    offsets + entries * 4 + 4 + files * 8
}

// Whether the counts and the string table's size are of 32 bits.
#[tactic(auto, using(crate::proofs::Heads::count_laws))]
fn counts_fit(content: Content<'_>) -> bool
    ensures fit { OnTrue result (IsOf32 (length content.entry.entries.now)
        × IsOf32 (length content.entry.files.now) × IsOf32 (length content.entry.strings.now)) }
    ensures fail { OnFalse result (counts_of_32 (view content.entry) ≡ false) }
{
    content.entries.len() <= MOST && content.files.len() <= MOST && content.strings.len() <= MOST
}

// The header's numbers. None where a count, or the string table's place or size, is not of 32 bits.
fn head_of(content: Content<'_>) -> Option<Head>
    ensures some { IfSome result (IsHead (view content.entry)) }
    ensures none { IfNone result (counts_of_32 (view content.entry) ≡ false) }
{
    if !counts_fit(content) {
        return None;
    }
    let base = base_of(content.entries);
    let size = least_size(content.entries, base);
    let place = strings_start(
        content.entries.len(),
        usize::from(size),
        content.files.len(),
    );
    if place > MOST {
        return None;
    }
    Some(Head {
        offset_size: size,
        base,
        count: content.entries.len() as u32,
        strings_place: place as u32,
        strings_size: content.strings.len() as u32,
    })
}

// Plans the file. None where a count, a place or a length is not of 32 bits.
pub(crate) fn plan_of(content: Content<'_>) -> Option<Plan>
    ensures some { IfSome result (IsPlan (view content.entry)) }
    ensures none { IfNone result (all_of_32 (view content.entry) ≡ false) }
{
    let head = head_of(content)?;
    let start = head.strings_place as usize + head.strings_size as usize;
    let len = data_end(start, content.entries)?;
    if !all_lengths_fit(content.entries) {
        return None;
    }
    Some(Plan { head, len })
}
