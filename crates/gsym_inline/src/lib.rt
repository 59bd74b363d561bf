//! The inline tree of one block (RULES, "Inline tree"): which calls were inlined at an address.
//!
//!     context   what goes down the tree
//!     head      a node's head, with no address in mind
//!     judge     a head judged at an address
//!     skipping  nodes passed over
//!     walk      the judging walk and its frames
//!     checking  the walk that judges every node
//!     laws      theorems on the definitions, as contracts of functions that do nothing
#![tactic(auto)]

mod checking;
mod context;
mod head;
mod judge;
mod laws;
mod skipping;
mod walk;

ghost use Rattle.std.specs.Prelude.{◌≡◌, ◌↔◌, [], IsOk, IsErrOf, IfErr, OnErr};
ghost use Rattle.gsym_types.specs.declared.Refusal.{Refusal};
ghost use Rattle.gsym_inline.specs.ListsFrames.{ListsFrames};
ghost use Rattle.gsym_inline.specs.Steps.{steps_of, check_steps};
ghost use Rattle.gsym_inline.specs.Checked.{checked_tree, IsOfTreeCheck};
ghost use Rattle.gsym_inline.specs.TreeInFull.{TreeInFull};
ghost use Rattle.gsym_inline.specs.FirstFault.{FirstFault};
ghost use Rattle.gsym_inline.specs.Block.{listing, refusal_of, block_of, room_of};

use arrayvec::ArrayVec;
use checking::check_node;
use context::Context;
pub use gsym_leb128::Cause;
use gsym_types::{Address, InlineFrame, MAX_FRAMES, Refusal};
pub use head::{DEEPEST_LEVEL, Fault, Head, NodeHead, head_at};
pub use laws::{cut_blocks, fault_numbers, one_answer, reads_iff, steps_in_order};
use walk::node;

/// The frames of a block, which are never more than `gsym_types::MAX_FRAMES` (RULES, "Inline tree").
pub type Frames = ArrayVec<InlineFrame, MAX_FRAMES>;

impl From<Fault> for Refusal {
    ghost from_gives = { λ f r. r ≡ refusal_of f };

    fn from(fault: Fault) -> Refusal {
        match fault {
            Fault::Unread(Cause::Short) => Refusal::UnreadInline,
            Fault::Unread(Cause::Wide) => Refusal::TooWide,
            Fault::Sum => Refusal::InlineSumTooLarge,
            Fault::CallFile => Refusal::CallFileTooLarge,
            Fault::Level => Refusal::TooDeep,
            Fault::Room => Refusal::TooManyFrames,
        }
    }
}

/// The frames of one block at an address, for the symbol that the block belongs to (RULES, "Inline tree"): the nodes
/// with a name other than 0 that contain the address and whose ancestors all contain it, parents before children,
/// siblings in file order. They take the place of what the list had. There is room for `room` of them, and for 64 at
/// most. A block that doesn't so read is refused for what comes first in reading order, with one of the refusals 10 to
/// 15, and leaves the list empty.
pub fn block_in(
    block: &[u8],
    symbol: Address,
    addr: Address,
    room: usize,
    frames: &mut Frames,
) -> Result<(), Refusal>
    // Ok exactly if the block reads: the frames are then those of its open nodes that have a name
    ensures listed { IsOk result
        ↔ ListsFrames symbol.0 addr.0 (room_of room) block.now frames.new.items }
    // refused exactly with the first fault among the steps of reading the block
    ensures refused { (r : Refusal) → IsErrOf result r
        ↔ FirstFault (room_of room) (steps_of symbol.0 addr.0 block.now) r }
    ensures empty { OnErr result (frames.new.items ≡ []) }
    ensures exact { listing result frames.new.items ≡ block_of symbol.0 addr.0 (room_of room) block.now }
{
    let context = Context {
        level: 1,
        addr: addr.0,
        base: symbol.0,
        room: room.min(MAX_FRAMES),
    };
    frames.clear();
    if let Err(fault) = node(block, context, 0, frames) {
        frames.clear();
        return Err(Refusal::from(fault));
    }
    Ok(())
}

/// Whether the tree of a block is there in full, for the symbol that the block belongs to, with each of its nodes
/// judged (RULES, "Checking a file"): its bytes read, no node has a start or an end above 2^64-1 or a call file above
/// 4,294,967,295, and none stands on level 65. Refused for what comes first in reading order, with one of the refusals
/// 10 to 13 and 15.
pub fn check_tree(block: &[u8], symbol: Address) -> Result<(), Refusal>
    ensures full { IsOk result ↔ TreeInFull symbol.0 block.now }
    ensures refused { (r : Refusal) → IsErrOf result r ↔ FirstFault 0 (check_steps symbol.0 block.now) r }
    ensures number { IfErr result IsOfTreeCheck }
    ensures exact { result ≡ checked_tree symbol.0 block.now }
{
    check_root(block, symbol)
}

// `check_tree`, held to the definition alone.
#[tactic(auto, unfolding(crate::specs::Checked::checked_tree))]
fn check_root(block: &[u8], symbol: Address) -> Result<(), Refusal>
    ensures { result ≡ checked_tree symbol.0 block.now }
{
    let context = Context {
        level: 1,
        addr: 0,
        base: symbol.0,
        room: 0,
    };
    check_node(block, context, 0)?;
    Ok(())
}
