//! What the reader of inline blocks answers to a case.
use crate::said::Said;
use arrayvec::ArrayVec;
use gsym_types::{Address, MAX_FRAMES};

/// How many frames there are, with room for so many, or the refusal.
pub fn with_room(block: &[u8], symbol: Address, addr: Address, frames: u64) -> Said {
    let mut listed = ArrayVec::new();
    match gsym_inline::block_in(block, symbol, addr, frames as usize, &mut listed) {
        Ok(()) => Said::value(listed.len() as u64, 0),
        Err(refusal) => Said::Refused(refusal.number()),
    }
}

/// A frame of the list: name, call file, call line.
pub fn nth_frame(block: &[u8], symbol: Address, addr: Address, index: u64) -> Said {
    let mut listed = ArrayVec::new();
    if gsym_inline::block_in(block, symbol, addr, MAX_FRAMES, &mut listed).is_err() {
        return Said::Unread;
    }
    match listed.as_slice().get(index as usize) {
        Some(frame) => Said::Value([
            frame.name.0 as u64,
            frame.call_file.0 as u64,
            frame.call_line.0 as u64,
            0,
        ]),
        None => Said::Unread,
    }
}
