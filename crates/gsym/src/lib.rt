//! What a user names (RULES, "Calls"): the symbol of an address with its source position and the calls inlined there,
//! the frames of a single block, and the strings that an answer points to, on the bytes of a file that the caller
//! lends. What is written goes into a list that the caller lends too; nothing is allocated.
//!
//!     lookups   the symbol of an address
//!     blocks    the frames of one inline block
//!     chain     an answer and its records, from the innermost call to the symbol
//!     files     an opened file, which has all of these as methods
//!
//! The types of the crates below that a caller names are named from here too.
#![tactic(auto)]

mod blocks;
mod chain;
mod files;
mod lookups;

pub use blocks::block_frames;
pub use chain::{Call, CallChain, calls};
pub use files::{Gsym, open};
pub use gsym_strtab::{name, text};
pub use gsym_types::{
    Address, Answer, FileIndex, Frame, InlineFrame, LineNumber, MAX_FRAMES, Options, Position,
    Refusal, StrOffset, Text, UnknownNumber,
};
pub use lookups::lookup;
