//! The frames of a single inline block, into a list that the caller lends (RULES, "Inline tree").
ghost use Rattle.std.specs.Prelude.{◌≡◌, ◌↔◌, ◌≤◌, ◌++◌, length, take, drop, IsOk, IfOk, OnErr, IsErrOf};
ghost use Rattle.gsym_types.specs.declared.Refusal.{Refusal};
ghost use Rattle.gsym_inline.specs.Block.{block_of, room_of};
ghost use Rattle.gsym_inline.specs.Reads.{Reads};
ghost use Rattle.gsym_inline.specs.ListsFrames.{ListsFrames};
ghost use Rattle.gsym_inline.specs.Steps.{steps_of};
ghost use Rattle.gsym_inline.specs.FirstFault.{FirstFault};
ghost use Rattle.gsym.specs.Blocks.{frames_in};

use arrayvec::ArrayVec;
use gsym_types::{Address, InlineFrame, Refusal};

/// The frames of one block at an address, for the symbol that the block belongs to, written over the first records of
/// `frames`: the function, and where it was called; and how many there are. There is room for as many as the list has
/// places, and for 64 at most. Records past the count stay as they are. A block that doesn't so read is refused for
/// what comes first in reading order, with one of the refusals 10 to 15, which changes no record (RULES, "Inline
/// tree").
#[tactic(auto, using(crate::proofs::SingleBlock::block_listed))]
pub fn block_frames(
    block: &[u8],
    symbol: Address,
    addr: Address,
    frames: &mut [InlineFrame],
) -> Result<usize, Refusal>
    // Ok exactly if the block reads: the list then begins with the frames of its open nodes that have a name, by paths.
    ensures reads { IsOk result ↔ Reads symbol.0 addr.0 (room_of (length frames.old)) block.now }
    ensures listed { IfOk result (λ count.
        ListsFrames symbol.0 addr.0 (room_of (length frames.old)) block.now (take count frames.new)) }
    // Refused exactly with the first fault among the steps of reading the block.
    ensures refused { (r : Refusal) → IsErrOf result r
        ↔ FirstFault (room_of (length frames.old)) (steps_of symbol.0 addr.0 block.now) r }
    ensures within { IfOk result (λ count. (count ≤ length frames.new) × (count ≤ 64)) }
    ensures stays { IfOk result (λ count. drop count frames.new ≡ drop count frames.old) }
    ensures kept { OnErr result (frames.new ≡ frames.old) }
    ensures exact { frames_in result frames.new ≡ block_of symbol.0 addr.0 (room_of (length frames.old)) block.now }
{
    read_block(block, symbol, addr, frames)
}

// `block_frames`, held to the definition alone.
#[inline(always)]
fn read_block(
    block: &[u8],
    symbol: Address,
    addr: Address,
    frames: &mut [InlineFrame],
) -> Result<usize, Refusal>
    ensures within { IfOk result (λ count. (count ≤ length frames.new) × (count ≤ 64)) }
    ensures stays { IfOk result (λ count. drop count frames.new ≡ drop count frames.old) }
    ensures kept { OnErr result (frames.new ≡ frames.old) }
    ensures exact { frames_in result frames.new ≡ block_of symbol.0 addr.0 (room_of (length frames.old)) block.now }
{
    let mut listed = ArrayVec::new();
    gsym_inline::block_in(block, symbol, addr, frames.len(), &mut listed)?;
    let count = listed.len();
    copy_frames(listed.as_slice(), frames);
    Ok(count)
}

// Copies frames to the front of a list that has room for them. Field by field, and not by `copy_from_slice`: that calls
// `memcpy`, which a host would have to bring along (DECISIONS, D58).
fn copy_frames(listed: &[InlineFrame], frames: &mut [InlineFrame])
    requires { length listed.now ≤ length frames.old }
    ensures { frames.new ≡ listed.now ++ drop (length listed.now) frames.old }
{
    for i in 0..listed.len() {
        let frame = listed[i];
        frames[i] = InlineFrame {
            name: frame.name,
            call_file: frame.call_file,
            call_line: frame.call_line,
        };
    }
}
