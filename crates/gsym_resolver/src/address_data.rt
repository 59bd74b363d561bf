//! The two readers of an entry's items (RULES, "Address data list"). The first fault in list order refuses, even if no
//! row comes later.
ghost use Rattle.std.specs.Prelude.{◌≡◌, ◌≤◌, true, false, [], length, OnOk};
ghost use Rattle.gsym_inline.specs.Block.{room_of};
ghost use Rattle.gsym_parser.specs.Items.{items_of};
ghost use Rattle.gsym_resolver.specs.Known.{question, nothing, known_with, read_items};

use gsym_inline::{Frames, block_in};
use gsym_linetab::{LineTableRow, header_refusal, line_row};
use gsym_parser::parse_address_data;
use gsym_types::{Address, Refusal};

// The types of the items that are read: the format's own numbers, and no enum, since any other is passed over.
const LINE_TABLE: u32 = 1;

const INLINE_INFO: u32 = 2;

// The row of an address where no frames are wanted: that of the first line table that has one. Later items can't refuse
// then, so they are not read. Refused: a line table's header that doesn't read is 9, or 15.
#[tactic(auto, using(crate::proofs::Unasked::row_stays), unfolding(crate::specs::Known::read_items))]
pub(crate) fn row_of(
    bytes: &[u8],
    symbol: Address,
    addr: Address,
) -> Result<Option<LineTableRow>, Refusal>
    ensures { known_with result [] ≡ read_items (question symbol addr 0 false) (items_of bytes.now) nothing }
{
    for item in parse_address_data(bytes) {
        if item.kind == LINE_TABLE {
            let row = line_row(item.bytes, symbol, addr).map_err(header_refusal)?;
            if row.is_some() {
                return Ok(row);
            }
        }
    }
    Ok(None)
}

// The row of an address, if there is one, and the frames, into an empty list with room for `room` of them. Refused: a
// line table's header that doesn't read is 9, or 15, and a block's fault is the block's own, 10 to 15.
#[tactic(auto, using(crate::proofs::Blocks::listed_room), unfolding(crate::specs::Known::read_items))]
pub(crate) fn row_and_frames(
    bytes: &[u8],
    symbol: Address,
    addr: Address,
    room: usize,
    frames: &mut Frames,
) -> Result<Option<LineTableRow>, Refusal>
    // The caller has just made the list.
    requires empty { frames.old.items ≡ [] }
    ensures fits { OnOk result (length frames.new.items ≤ room_of room) }
    ensures known { known_with result frames.new.items
        ≡ read_items (question symbol addr (room_of room) true) (items_of bytes.now) nothing }
{
    let mut row = None;
    for item in parse_address_data(bytes) {
        if item.kind == LINE_TABLE && row.is_none() {
            row = line_row(item.bytes, symbol, addr).map_err(header_refusal)?;
        } else if item.kind == INLINE_INFO && frames.is_empty() {
            block_in(item.bytes, symbol, addr, room, frames)?;
        }
    }
    Ok(row)
}
