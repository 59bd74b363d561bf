//! What the tables of a file, the search in them and the items answer to a case. In a file that does not open there is
//! none of what was asked for.
use crate::said::Said;
use gsym_parser::GsymContext;
use gsym_types::{Address, FileIndex};

/// Whether the file opens, or the refusal.
pub fn opening(file: &[u8]) -> Said {
    match GsymContext::parse_header(file) {
        Ok(_) => Said::value(0, 0),
        Err(refusal) => Said::Refused(refusal.number()),
    }
}

/// The index of the entry of an address, and its symbol's address.
pub fn entry_of(file: &[u8], addr: Address) -> Said {
    let Ok(opened) = GsymContext::parse_header(file) else {
        return Said::Unread;
    };
    match opened.find_addr(addr) {
        Some(found) => Said::value(found.index as u64, found.symbol.0),
        None => Said::Unread,
    }
}

/// Size and name of an entry.
pub fn info(file: &[u8], i: usize) -> Said {
    let Ok(opened) = GsymContext::parse_header(file) else {
        return Said::Unread;
    };
    match opened.addr_info(i) {
        Some(info) => Said::value(info.size as u64, info.name.0 as u64),
        None => Said::Unread,
    }
}

/// Directory and file name of a row of the file table.
pub fn file(file: &[u8], index: FileIndex) -> Said {
    let Ok(opened) = GsymContext::parse_header(file) else {
        return Said::Unread;
    };
    match opened.file_info(index) {
        Some(info) => Said::value(info.directory.0 as u64, info.filename.0 as u64),
        None => Said::Unread,
    }
}

/// Kind, place and length of an item of an entry. The bytes that are left behind it go to the file's end.
pub fn nth_item(file: &[u8], i: usize, count: u64) -> Said {
    let Ok(opened) = GsymContext::parse_header(file) else {
        return Said::NoItem;
    };
    let Some(info) = opened.addr_info(i) else {
        return Said::NoItem;
    };
    let mut items = gsym_parser::parse_address_data(info.data);
    match items.nth(count as usize) {
        Some(item) => {
            let len = item.bytes.len();
            let place = file.len().wrapping_sub(items.rest.len()).wrapping_sub(len);
            Said::Value([item.kind as u64, place as u64, len as u64, 0])
        }
        None => Said::NoItem,
    }
}
