//! Writes the parts of a file, each at its place in lent bytes (RULES, "Writing a file"). Each function answers the
//! place behind what it wrote; what stands before its place and behind that stays.
ghost use Rattle.std.specs.Prelude.{◌≡◌, ◌+◌, ◌*◌, ◌-◌, ◌++◌, ◌<◌, ◌≤◌, ◌^◌, true, map, take, drop, length};
ghost use Rattle.std.specs.Int.{w32, to_le_bytes};
ghost use Rattle.std.specs.List.{All, flat_map};
ghost use Rattle.gsym_parser.specs.Items.{item_view};
ghost use Rattle.gsym_parser.specs.Search.{is_width, width_of};
ghost use Rattle.gsym_layout.specs.Layout.{zeros, numbers, item_bytes, data_bytes, row_bytes, data_from, places_from};
ghost use Rattle.gsym_layout.specs.Layout.{header_bytes, head_of, layout_of};
ghost use Rattle.gsym_layout.specs.Writable.{IsOf32, Of32};
ghost use Rattle.gsym_writer.specs.Parts.{addresses_less, index_bytes, front_bytes, shared_bytes};
ghost use Rattle.gsym_writer.specs.View.{entry_view, entries_view, view, head_view};

use super::{Address, Content, Entry, FileInfo, Item};
use crate::plan::{Head, data_len};
use gsym_parser::{HEADER_LEN, MAGIC, VERSION};

// Bytes.
#[tactic(auto, using(crate::proofs::Behind::part_laws))]
fn put_bytes(out: &mut [u8], at: usize, bytes: &[u8]) -> usize
    requires { at + length bytes.now ≤ length out.old }
    ensures next { result ≡ at + length bytes.now }
    ensures written { take result out.new ≡ take at out.old ++ bytes.now }
    ensures rest { drop result out.new ≡ drop result out.old }
{
    let end = at + bytes.len();
    out[at..end].copy_from_slice(bytes);
    end
}

// Zeros up to a place.
#[tactic(auto, using(crate::proofs::Behind::part_laws))]
fn put_zeros(out: &mut [u8], at: usize, end: usize) -> usize
    requires order { at ≤ end }
    requires room { end ≤ length out.old }
    ensures next { result ≡ end }
    ensures written { take result out.new ≡ take at out.old ++ zeros (end - at) }
    ensures rest { drop result out.new ≡ drop result out.old }
{
    out[at..end].fill(0);
    end
}

// A number of four bytes.
fn put_u32(out: &mut [u8], at: usize, number: u32) -> usize
    requires { at + 4 ≤ length out.old }
    ensures next { result ≡ at + 4 }
    ensures written { take result out.new ≡ take at out.old ++ to_le_bytes w32 number }
    ensures rest { drop result out.new ≡ drop result out.old }
{
    put_bytes(out, at, &number.to_le_bytes())
}

// A number of an offset size.
#[tactic(auto, using(crate::proofs::Numbers::take_to_le_bytes, crate::proofs::Numbers::length_to_le_bytes))]
fn put_number(out: &mut [u8], at: usize, size: usize, number: u64) -> usize
    requires size { is_width size ≡ true }
    requires room { at + length (to_le_bytes (width_of size) number) ≤ length out.old }
    ensures next { result ≡ at + length (to_le_bytes (width_of size) number) }
    ensures written { take result out.new ≡ take at out.old ++ to_le_bytes (width_of size) number }
    ensures rest { drop result out.new ≡ drop result out.old }
{
    put_bytes(out, at, &number.to_le_bytes()[..size])
}

// ---- the data of entries

// An item: type, length, bytes.
#[tactic(auto, using(crate::proofs::Behind::drop_later), unfolding(gsym_layout::specs::Layout::item_bytes))]
fn put_item(out: &mut [u8], at: usize, item: &Item<'_>) -> usize
    requires room { at + length (item_bytes (item_view item.now)) ≤ length out.old }
    requires short { length item.now.bytes.now < 2 ^ 32 }
    ensures next { result ≡ at + length (item_bytes (item_view item.now)) }
    ensures written { take result out.new ≡ take at out.old ++ item_bytes (item_view item.now) }
    ensures rest { drop result out.new ≡ drop result out.old }
{
    let at = put_u32(out, at, item.kind);
    let at = put_u32(out, at, item.bytes.len() as u32);
    put_bytes(out, at, item.bytes)
}

// Items, one after another.
#[tactic(auto, using(crate::proofs::Behind::drop_later))]
fn put_items(out: &mut [u8], at: usize, items: &[Item<'_>]) -> usize
    requires room { at + length (flat_map item_bytes (map item_view items.now)) ≤ length out.old }
    requires short { All (λ i. length i.bytes.now < 2 ^ 32) items.now }
    ensures next { result ≡ at + length (flat_map item_bytes (map item_view items.now)) }
    ensures written { take result out.new ≡ take at out.old ++ flat_map item_bytes (map item_view items.now) }
    ensures rest { drop result out.new ≡ drop result out.old }
{
    let mut place = at;
    for item in items {
        place = put_item(out, place, item);
    }
    place
}

// What an entry says, its list ended by type 0 with length 0.
#[tactic(auto, using(crate::proofs::Behind::drop_later), unfolding(gsym_layout::specs::Layout::data_bytes))]
fn put_data(out: &mut [u8], at: usize, entry: &Entry<'_>) -> usize
    requires room { at + length (data_bytes (entry_view entry.now)) ≤ length out.old }
    requires short { All (λ i. length i.bytes.now < 2 ^ 32) entry.now.items.now }
    ensures next { result ≡ at + length (data_bytes (entry_view entry.now)) }
    ensures written { take result out.new ≡ take at out.old ++ data_bytes (entry_view entry.now) }
    ensures rest { drop result out.new ≡ drop result out.old }
{
    let at = put_u32(out, at, entry.size);
    let at = put_u32(out, at, entry.name.0);
    let at = put_items(out, at, entry.items);
    let at = put_u32(out, at, 0);
    put_u32(out, at, 0)
}

// The data of entries, each at the next place divisible by 4.
fn put_all_data(out: &mut [u8], at: usize, entries: &[Entry<'_>]) -> usize
    requires room { at + length (data_from at (entries_view entries.now)) ≤ length out.old }
    requires short { All (λ e. All (λ i. length i.bytes.now < 2 ^ 32) e.items.now) entries.now }
    ensures next { result ≡ at + length (data_from at (entries_view entries.now)) }
    ensures written { take result out.new ≡ take at out.old ++ data_from at (entries_view entries.now) }
    ensures rest { drop result out.new ≡ drop result out.old }
{
    let mut place = at;
    for entry in entries {
        let start = put_zeros(out, place, place.next_multiple_of(4));
        place = put_data(out, start, entry);
    }
    place
}

// ---- the tables

// The header's first half.
#[tactic(auto, using(crate::proofs::Behind::drop_later))]
fn put_front(out: &mut [u8], head: Head) -> usize
    requires { 48 ≤ length out.old }
    ensures next { result ≡ 16 }
    ensures written { take result out.new ≡ front_bytes (head_view head) }
    ensures rest { drop result out.new ≡ drop result out.old }
{
    let at = put_bytes(out, 0, &MAGIC.to_le_bytes());
    let at = put_bytes(out, at, &VERSION.to_le_bytes());
    let at = put_bytes(out, at, &[head.offset_size, 0]);
    put_bytes(out, at, &head.base.0.to_le_bytes())
}

// The header.
#[tactic(auto, using(crate::proofs::Behind::drop_later), unfolding(gsym_layout::specs::Layout::header_bytes))]
fn put_header(out: &mut [u8], head: Head) -> usize
    requires { 48 ≤ length out.old }
    ensures next { result ≡ 48 }
    ensures written { take result out.new ≡ header_bytes (head_view head) }
    ensures rest { drop result out.new ≡ drop result out.old }
{
    let at = put_front(out, head);
    let at = put_u32(out, at, head.count);
    let at = put_u32(out, at, head.strings_place);
    let at = put_u32(out, at, head.strings_size);
    put_zeros(out, at, HEADER_LEN)
}

// Of each entry the address less the base.
fn put_addresses(
    out: &mut [u8],
    at: usize,
    size: usize,
    base: Address,
    entries: &[Entry<'_>],
) -> usize
    requires size { is_width size ≡ true }
    requires room { at + length (numbers (width_of size) (addresses_less base.0 (entries_view entries.now)))
        ≤ length out.old }
    ensures next { result ≡ at + length (numbers (width_of size) (addresses_less base.0 (entries_view entries.now))) }
    ensures written { take result out.new
        ≡ take at out.old ++ numbers (width_of size) (addresses_less base.0 (entries_view entries.now)) }
    ensures rest { drop result out.new ≡ drop result out.old }
{
    let mut place = at;
    for entry in entries {
        place = put_number(out, place, size, entry.addr.0.saturating_sub(base.0));
    }
    place
}

// The place of each entry's data, where these begin at a place.
fn put_places(out: &mut [u8], at: usize, data: usize, entries: &[Entry<'_>]) -> usize
    requires room { at + length (numbers w32 (places_from «data» (entries_view entries.now))) ≤ length out.old }
    requires of_32 { All IsOf32 (places_from «data» (entries_view entries.now)) }
    requires fits { «data» + length (data_from «data» (entries_view entries.now)) < 2 ^ 64 }
    ensures next { result ≡ at + length (numbers w32 (places_from «data» (entries_view entries.now))) }
    ensures written { take result out.new
        ≡ take at out.old ++ numbers w32 (places_from «data» (entries_view entries.now)) }
    ensures rest { drop result out.new ≡ drop result out.old }
{
    let mut place = at;
    let mut end = data;
    for entry in entries {
        let start = end.next_multiple_of(4);
        place = put_u32(out, place, start as u32);
        end = start + data_len(entry.items);
    }
    place
}

// A row of the file table.
#[tactic(auto, using(crate::proofs::Behind::drop_later))]
fn put_row(out: &mut [u8], at: usize, file: FileInfo) -> usize
    requires { at + length (row_bytes file) ≤ length out.old }
    ensures next { result ≡ at + length (row_bytes file) }
    ensures written { take result out.new ≡ take at out.old ++ row_bytes file }
    ensures rest { drop result out.new ≡ drop result out.old }
{
    let at = put_u32(out, at, file.directory.0);
    put_u32(out, at, file.filename.0)
}

// The file table.
fn put_rows(out: &mut [u8], at: usize, files: &[FileInfo]) -> usize
    requires { at + length (flat_map row_bytes files.now) ≤ length out.old }
    ensures next { result ≡ at + length (flat_map row_bytes files.now) }
    ensures written { take result out.new ≡ take at out.old ++ flat_map row_bytes files.now }
    ensures rest { drop result out.new ≡ drop result out.old }
{
    let mut place = at;
    for file in files {
        place = put_row(out, place, *file);
    }
    place
}

// File count, files and strings.
#[tactic(auto, using(crate::proofs::Behind::drop_later), unfolding(crate::specs::Parts::shared_bytes))]
fn put_shared(out: &mut [u8], at: usize, files: &[FileInfo], strings: &[u8]) -> usize
    requires count { IsOf32 (length files.now) }
    requires room { at + length (shared_bytes files.now strings.now) ≤ length out.old }
    ensures next { result ≡ at + length (shared_bytes files.now strings.now) }
    ensures written { take result out.new ≡ take at out.old ++ shared_bytes files.now strings.now }
    ensures rest { drop result out.new ≡ drop result out.old }
{
    let at = put_u32(out, at, files.len() as u32);
    let at = put_rows(out, at, files);
    put_bytes(out, at, strings)
}

// The address table, zeros, and the places of data, which begin where the file is so long up to them.
#[tactic(auto, using(crate::proofs::Behind::drop_later), unfolding(crate::specs::Parts::index_bytes))]
fn put_index(
    out: &mut [u8],
    at: usize,
    size: usize,
    base: Address,
    data: usize,
    entries: &[Entry<'_>],
) -> usize
    requires size { is_width size ≡ true }
    requires room { at + length (index_bytes at size base.0 «data» (entries_view entries.now)) ≤ length out.old }
    requires of_32 { All IsOf32 (places_from «data» (entries_view entries.now)) }
    requires fits { «data» + length (data_from «data» (entries_view entries.now)) < 2 ^ 64 }
    ensures next { result ≡ at + length (index_bytes at size base.0 «data» (entries_view entries.now)) }
    ensures written { take result out.new
        ≡ take at out.old ++ index_bytes at size base.0 «data» (entries_view entries.now) }
    ensures rest { drop result out.new ≡ drop result out.old }
{
    let end = put_addresses(out, at, size, base, entries);
    let start = put_zeros(out, end, end.next_multiple_of(4));
    put_places(out, start, data, entries)
}

// Writes the file of `content` at the front.
pub(crate) fn put_file(out: &mut [u8], head: Head, content: Content<'_>) -> usize
    requires head { head_view head ≡ head_of (view content) }
    requires of_32 { Of32 (view content) }
    requires room { length (layout_of (view content)) ≤ length out.old }
    ensures next { result ≡ length (layout_of (view content.entry)) }
    ensures written { take result out.new ≡ layout_of (view content.entry) }
    ensures rest { drop result out.new ≡ drop result out.old }
{
    let data = head.strings_place as usize + head.strings_size as usize;
    let at = put_header(out, head);
    let at = put_index(
        out,
        at,
        usize::from(head.offset_size),
        head.base,
        data,
        content.entries,
    );
    let at = put_shared(out, at, content.files, content.strings);
    put_all_data(out, at, content.entries)
}
