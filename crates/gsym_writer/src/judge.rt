//! What is judged before a file is written (RULES, "Writing a file"). Each goes over all that is given, since the
//! refusals come in the order of their kinds.
ghost use Rattle.std.specs.Prelude.{◌≡◌, ◌&&◌, None, map, length, is_some, OnOk};
ghost use Rattle.std.specs.Bool.{OnTrue};
ghost use Rattle.std.specs.List.{All, list_all};
ghost use Rattle.gsym_parser.specs.Items.{item_view};
ghost use Rattle.gsym_strtab.specs.Strings.{name_in, text_in};
ghost use Rattle.gsym_layout.specs.Writable.{IsOf32, AllItems, Typed};
ghost use Rattle.gsym_writer.specs.View.{entry_view, entries_view, view};
ghost use Rattle.gsym_writer.specs.Writing.{is_above, rising, all_pass, sum_fits, name_reads, file_reads};
ghost use Rattle.gsym_writer.specs.Writing.{no_end, has_no_end, said_judged};
ghost use Rattle.gsym_writer.specs.declared.error.WriteError.TheVariants.{SumTooLarge, UnreadName, UnreadFile, EndItem};

use super::{Content, Entry, WriteError};
use gsym_parser::{FileInfo, Item};
use gsym_strtab::{StrTable, name_at, text_at};
use gsym_types::StrOffset;

// Whether an address is above the one before it, if there is one.
fn is_above(before: Option<u64>, addr: u64) -> bool
    ensures { result ≡ is_above before addr }
{
    match before {
        Some(before) => before < addr,
        None => true,
    }
}

// Each entry is above the one before it.
fn judge_rise(entries: &[Entry<'_>]) -> Result<(), WriteError>
    ensures { result ≡ rising None 0 (entries_view entries.now) }
{
    let mut before = None;
    for (entry, this) in entries.iter().enumerate() {
        if !is_above(before, this.addr.0) {
            return Err(WriteError::NotRising { entry });
        }
        before = Some(this.addr.0);
    }
    Ok(())
}

// Whether an address and a size come to 2^64-1 at most.
fn sum_fits(entry: &Entry<'_>) -> bool
    ensures exact { result ≡ sum_fits (entry_view entry.now) }
    ensures typed { IsOf32 entry.now.size }
{
    entry.addr.0 <= u64::MAX - u64::from(entry.size)
}

// No symbol ends above 2^64-1.
fn judge_sums(entries: &[Entry<'_>]) -> Result<(), WriteError>
    ensures exact { result ≡ all_pass sum_fits SumTooLarge 0 (entries_view entries.now) }
    ensures typed { OnOk result (All (λ e. IsOf32 e.size) (entries_view entries.now)) }
{
    for (entry, this) in entries.iter().enumerate() {
        if !sum_fits(this) {
            return Err(WriteError::SumTooLarge { entry });
        }
    }
    Ok(())
}

// The strings as the string table of a file that is nothing else.
fn table_of(strings: &[u8]) -> StrTable
    ensures { result ≡ record { place = 0; size = length strings.now } }
{
    StrTable {
        place: 0,
        size: strings.len(),
    }
}

// Whether a name reads.
#[tactic(auto, using(crate::proofs::Strings::name_alone))]
fn reads_name(strings: &[u8], name: StrOffset) -> bool
    ensures { result ≡ is_some (name_in strings.now name.0) }
{
    name_at(strings, table_of(strings), name).is_some()
}

// Whether a string does.
#[tactic(auto, using(crate::proofs::Strings::text_alone))]
fn reads_text(strings: &[u8], text: StrOffset) -> bool
    ensures { result ≡ is_some (text_in strings.now text.0) }
{
    text_at(strings, table_of(strings), text).is_some()
}

// Whether both strings of a file do.
fn reads_file(strings: &[u8], file: FileInfo) -> bool
    ensures { result
        ≡ (is_some (text_in strings.now file.directory.0) && is_some (text_in strings.now file.filename.0)) }
{
    reads_text(strings, file.directory) && reads_text(strings, file.filename)
}

// Each entry's name reads.
fn judge_names(content: Content<'_>) -> Result<(), WriteError>
    ensures { result ≡ all_pass (name_reads (view content.entry).tables) UnreadName 0 (view content.entry).entries }
{
    for (entry, this) in content.entries.iter().enumerate() {
        if !reads_name(content.strings, this.name) {
            return Err(WriteError::UnreadName { entry });
        }
    }
    Ok(())
}

// Both strings of each file read.
fn judge_files(content: Content<'_>) -> Result<(), WriteError>
    ensures { result
        ≡ all_pass (file_reads (view content.entry).tables) UnreadFile 0 (view content.entry).tables.files }
{
    for (file, this) in content.files.iter().enumerate() {
        if !reads_file(content.strings, *this) {
            return Err(WriteError::UnreadFile { file });
        }
    }
    Ok(())
}

// Whether an item's type is not 0.
fn is_no_end(item: &Item<'_>) -> bool
    ensures exact { result ≡ no_end (item_view item.now) }
    ensures typed { IsOf32 item.now.kind }
{
    item.kind != 0
}

// Whether no item has type 0.
fn has_no_end(items: &[Item<'_>]) -> bool
    ensures exact { result ≡ list_all no_end (map item_view items.now) }
    ensures typed { OnTrue result (All (λ item. IsOf32 item.kind) (map item_view items.now)) }
{
    for item in items {
        if !is_no_end(item) {
            return false;
        }
    }
    true
}

// No item of an entry has type 0.
fn judge_ends(entries: &[Entry<'_>]) -> Result<(), WriteError>
    ensures exact { result ≡ all_pass has_no_end EndItem 0 (entries_view entries.now) }
    ensures typed { OnOk result (AllItems (λ item. IsOf32 item.kind) (entries_view entries.now)) }
{
    for (entry, this) in entries.iter().enumerate() {
        if !has_no_end(this.items) {
            return Err(WriteError::EndItem { entry });
        }
    }
    Ok(())
}

// Judges addresses, strings and types: the first refusal of 21, 22, 29 and 30.
#[tactic(auto, unfolding(crate::specs::Writing::said_judged))]
pub(crate) fn judge(content: Content<'_>) -> Result<(), WriteError>
    ensures exact { result ≡ said_judged (view content.entry) }
    ensures typed { OnOk result (Typed (view content.entry)) }
{
    judge_rise(content.entries)?;
    judge_sums(content.entries)?;
    judge_names(content)?;
    judge_files(content)?;
    judge_ends(content.entries)
}
