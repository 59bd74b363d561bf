//! A node's head, read with no address in mind: what it says and where its parts stand (RULES, "Inline tree"). Judging
//! it at an address is left to `judge`.
ghost use Rattle.std.specs.Prelude.{◌≡◌, ◌+◌, ◌≤◌, OnOk, length, min};
ghost use Rattle.gsym_inline.specs.declared.head.Fault.TheVariants.{Unread};
ghost use Rattle.gsym_inline.specs.Limits.{most_line};
ghost use Rattle.gsym_inline.specs.Head.{children_and_name, past_ranges, rest_head, node_head, head_at, GoesOn};

use gsym_leb128::{Cause, unsigned_at};
use gsym_types::{LineNumber, StrOffset};

/// The deepest level that a node may stand on; the root stands on level 1 (RULES, "Inline tree").
pub const DEEPEST_LEVEL: usize = 64;

/// The largest call line that is told; one above it becomes this (RULES, "Inline tree").
const MOST_LINE: u64 = 0xffff_ffff;

/// What ends the reading of a block (RULES, "Inline tree").
#[derive(Clone, Copy, Debug, PartialEq, Eq, Hash)]
pub enum Fault {
    /// The bytes don't read: they end (10), or a number is too wide (15).
    // No Option: one error beside others, and it keeps the cause.
    Unread(Cause),
    /// The start or the end of a range is above 2^64-1 (11).
    Sum,
    /// A call file is above 4,294,967,295 (12).
    CallFile,
    /// A node stands on a level below the deepest (13).
    Level,
    /// There are more frames than room (14).
    Room,
}

impl From<Cause> for Fault {
    ghost from_gives = { λ c f. f ≡ Unread c };

    fn from(c: Cause) -> Fault {
        Fault::Unread(c)
    }
}

/// A whole head (RULES, "Inline tree"). Places are counted in bytes from the start of the block.
#[derive(Clone, Copy, Debug, PartialEq, Eq, Default, Hash)]
pub struct NodeHead {
    /// How many ranges there are, at least one.
    pub ranges: u64,
    /// Where the first range stands.
    pub first: usize,
    /// The children byte: 0 where no list of children follows.
    pub children: u8,
    /// Where the name stands.
    pub name_at: usize,
    /// The name, 0 where there is none.
    pub name: StrOffset,
    /// The call file, which is not judged.
    pub call_file: u64,
    /// The call line, 4,294,967,295 where the block has one above.
    pub call_line: LineNumber,
    /// The place after the head.
    pub next: usize,
}

/// What stands where a node is looked for (RULES, "Inline tree"), with what is told of a node.
// No Option: the end of the list too has a place where reading goes on.
#[derive(Clone, Copy, Debug, PartialEq, Eq, Hash)]
pub enum Head<T> {
    /// A range count of 0, which ends the list; and the place after it.
    End(usize),
    /// A node.
    Node(T),
}

// The place after ranges.
#[tactic(auto, using(crate::proofs::Ranges::past_none, crate::proofs::Ranges::past_no_off, crate::proofs::Ranges::past_no_size, crate::proofs::Ranges::past_one))]
fn pass_ranges(s: &[u8], count: u64, at: usize) -> Result<usize, Cause>
    ensures { result ≡ past_ranges count s.now at }
{
    let mut to = at;
    for _ in 0..count {
        let (_, m) = unsigned_at(s, to)?;
        let (_, n) = unsigned_at(s, m)?;
        to = n;
    }
    Ok(to)
}

// A call line as it is told.
pub(crate) fn capped(line: u64) -> u32
    ensures { result ≡ min most_line line }
{
    line.min(MOST_LINE) as u32
}

// The children byte and the name, which stand side by side: told to be there by one test.
#[inline(always)]
#[tactic(auto, unfolding(crate::specs::Head::children_and_name, gsym_reads::specs::Answers::u8_at, gsym_reads::specs::Answers::u32_at, gsym_reads::specs::Fronts::byte_front, gsym_reads::specs::Fronts::u32_front))]
pub(crate) fn children_and_name(s: &[u8], at: usize) -> Result<(u8, u32), Cause>
    ensures exact { result ≡ children_and_name s.now at }
    ensures within { OnOk result (at + 5 ≤ length s.now) }
{
    if s.len() <= at || s.len() - at < 5 {
        return Err(Cause::Short);
    }
    let name = u32::from_le_bytes([s[at + 1], s[at + 2], s[at + 3], s[at + 4]]);
    Ok((s[at], name))
}

// What follows the ranges of a node, of which there are `ranges` from `first` on. As a part of `node_head` its last
// read would be compiled as a call.
#[tactic(auto, unfolding(crate::specs::Head::rest_head, crate::specs::Head::rest_at, crate::specs::Head::children_and_name))]
fn head_tail(s: &[u8], ranges: u64, first: usize, at: usize) -> Result<NodeHead, Fault>
    ensures { result ≡ rest_head ranges first s.now at }
{
    let (children, name) = children_and_name(s, at)?;
    let (call_file, m) = unsigned_at(s, at + 5)?;
    let (line, next) = unsigned_at(s, m)?;
    Ok(NodeHead {
        ranges,
        first,
        children,
        name_at: at + 1,
        name: StrOffset(name),
        call_file,
        call_line: LineNumber(capped(line)),
        next,
    })
}

// A node after its range count: its level, its ranges, and what follows them.
#[tactic(auto, unfolding(crate::specs::Head::node_head))]
fn node_head(s: &[u8], level: usize, ranges: u64, first: usize) -> Result<NodeHead, Fault>
    ensures { result ≡ node_head s.now level ranges first }
{
    if DEEPEST_LEVEL < level {
        return Err(Fault::Level);
    }
    let at = pass_ranges(s, ranges, first)?;
    head_tail(s, ranges, first, at)
}

/// What stands at the place `at` of a block, where a node on `level` is looked for; the caller counts levels, and the
/// root stands on level 1. Only 10, 13 and 15 are given, in the order of RULES ("Inline tree", "Order inside a node").
#[tactic(auto, unfolding(crate::specs::Head::head_at))]
pub fn head_at(s: &[u8], level: usize, at: usize) -> Result<Head<NodeHead>, Fault>
    ensures exact { result ≡ head_at s.now level at }
    // reading goes on further on, within the bytes
    ensures onward { GoesOn result (λ node. node.next) level at (length s.now) }
{
    let (ranges, first) = unsigned_at(s, at)?;
    if ranges == 0 {
        return Ok(Head::End(first));
    }
    let node = node_head(s, level, ranges, first)?;
    Ok(Head::Node(node))
}
