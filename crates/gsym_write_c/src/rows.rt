//! What rows give, as `gsym_writer` has it (RULES, "Writing a file"): lists whose items and bytes are parts of what is
//! lent.
ghost use Rattle.std.specs.Prelude.{◌≡◌, ◌≤◌, ◌&&◌, IfOk, map, length, sum_by};
ghost use Rattle.gsym_parser.specs.Items.{item_view};
ghost use Rattle.gsym_writer.specs.View.{entry_view};
ghost use Rattle.gsym_write_c.specs.Rows.{items_come_out, bytes_come_out};
ghost use Rattle.gsym_write_c.specs.Rows.{items_given, entries_given, file_given};
ghost use Rattle.gsym_write_c.specs.declared.GsymEntry.{GsymEntry};
ghost use Rattle.gsym_write_c.specs.declared.GsymItem.{GsymItem};

use crate::{GsymEntry, GsymFile, GsymItem};
use gsym_writer::{Address, Entry, FileInfo, Item, StrOffset};
use std::alloc::{AllocError, Global};

// ---- whether they come out

fn items_come_out(rows: &[GsymEntry], count: usize) -> bool
    ensures { result ≡ items_come_out rows.now count }
{
    let mut left = count as u64;
    for row in rows {
        if row.items > left {
            return false;
        }
        left -= row.items;
    }
    left == 0
}

fn bytes_come_out(rows: &[GsymItem], count: usize) -> bool
    ensures { result ≡ bytes_come_out rows.now count }
{
    let mut left = count as u64;
    for row in rows {
        if row.len > left {
            return false;
        }
        left -= row.len;
    }
    left == 0
}

// Whether the entries have all items, and the items all bytes.
pub(crate) fn come_out(entries: &[GsymEntry], items: &[GsymItem], bytes: &[u8]) -> bool
    ensures { result ≡ (items_come_out entries.now (length items.now)
        && bytes_come_out items.now (length bytes.now)) }
{
    items_come_out(entries, items.len()) && bytes_come_out(items, bytes.len())
}

// ---- the lists

// The items, each with the next of the bytes.
pub(crate) fn items_list<'a>(
    alloc: Global,
    rows: &[GsymItem],
    bytes: &'a [u8],
) -> Result<Vec<Item<'a>>, AllocError>
    requires { sum_by (λ (i : GsymItem). i.len) rows.now ≤ length bytes.now }
    ensures { IfOk result (λ list. map item_view list.items ≡ items_given rows.now bytes.now) }
{
    let mut list = Vec::with_capacity(alloc, rows.len())?;
    let mut rest = bytes;
    for row in rows {
        let (own, behind) = rest.split_at(row.len as usize);
        list.push(Item {
            kind: row.kind,
            bytes: own,
        })?;
        rest = behind;
    }
    Ok(list)
}

// The entries, each with the next of the items.
pub(crate) fn entries_list<'a>(
    alloc: Global,
    rows: &[GsymEntry],
    items: &'a [Item<'a>],
) -> Result<Vec<Entry<'a>>, AllocError>
    requires { sum_by (λ (e : GsymEntry). e.items) rows.now ≤ length items.now }
    ensures { IfOk result (λ list. map entry_view list.items ≡ entries_given rows.now (map item_view items.now)) }
{
    let mut list = Vec::with_capacity(alloc, rows.len())?;
    let mut start = 0;
    for row in rows {
        let end = start + row.items as usize;
        list.push(Entry {
            addr: Address(row.addr),
            size: row.size,
            name: StrOffset(row.name),
            items: &items[start..end],
        })?;
        start = end;
    }
    Ok(list)
}

// The files.
pub(crate) fn files_list(alloc: Global, rows: &[GsymFile]) -> Result<Vec<FileInfo>, AllocError>
    ensures { IfOk result (λ list. list.items ≡ map file_given rows.now) }
{
    let mut list = Vec::with_capacity(alloc, rows.len())?;
    for row in rows {
        list.push(FileInfo {
            directory: StrOffset(row.directory),
            filename: StrOffset(row.filename),
        })?;
    }
    Ok(list)
}
