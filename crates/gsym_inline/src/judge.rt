//! A node's head judged at an address (RULES, "Inline tree", "Order inside a node"): what comes first of 10 to 13
//! and 15, or what the node comes to. Frames and children are left to `walk`.
ghost use Rattle.std.specs.Prelude.{◌≡◌, true, false, nat_le, nat_lt, length, if◌then◌else◌};
ghost use Rattle.gsym_inline.specs.Head.{GoesOn};
ghost use Rattle.gsym_inline.specs.Judge.{judged_range, judged_ranges, judged_rest, judged_node, judged_at, span_of};
ghost use Rattle.gsym_inline.specs.Judge.{spans_of};
ghost use Rattle.gsym_inline.specs.Inherited.{inherited_of};

use super::context::Context;
use super::head::{DEEPEST_LEVEL, Fault, Head, capped, children_and_name};
use gsym_leb128::unsigned_at;
use gsym_types::{FileIndex, InlineFrame, LineNumber, StrOffset};

/// The largest call file (RULES, "Inline tree").
const MOST_FILE: u64 = 0xffff_ffff;

/// A node without a fault: the place after its head, where its children's offsets count from, whether it contains the
/// address, its children byte, and the frame that it is if it is open and has a name.
#[derive(Clone, Copy, Debug, PartialEq, Eq)]
pub(crate) struct JudgedNode {
    pub next: usize,
    pub base: u64,
    // No flag beside a value: the others are there in both cases.
    pub inside: bool,
    pub children: u8,
    pub frame: InlineFrame,
}

// Whether a range contains an address; its end is not in it.
fn contains(start: u64, end: u64, addr: u64) -> bool
    ensures { result ≡ (if nat_le start addr then nat_lt addr end else false) }
{
    (start..end).contains(&addr)
}

// One range: offset, size, start, end, in this order. The place after it, its start, and whether it contains the
// address.
#[tactic(auto, unfolding(crate::specs::Judge::span_of, crate::specs::Judge::judged_range, crate::specs::Frames::in_range))]
fn range(s: &[u8], context: Context, at: usize) -> Result<(usize, u64, bool), Fault>
    ensures { result ≡ span_of (inherited_of context) (judged_range context.base s.now at) }
{
    let (off, m) = unsigned_at(s, at)?;
    let (size, n) = unsigned_at(s, m)?;
    let start = context.base.checked_add(off).ok_or(Fault::Sum)?;
    let end = start.checked_add(size).ok_or(Fault::Sum)?;
    Ok((n, start, contains(start, end, context.addr)))
}

// All ranges of a node: the place after them, the start of the first, and whether one of them contains the address.
fn ranges(s: &[u8], context: Context, count: u64, at: usize) -> Result<(usize, u64, bool), Fault>
    ensures { result ≡ spans_of (inherited_of context) (judged_ranges context.base count s.now at) }
{
    let mut to = at;
    let mut first = context.base;
    let mut inside = false;
    // By its number the first range is told apart.
    for k in 0..count {
        let (n, start, holds) = range(s, context, to)?;
        if k == 0 {
            first = start;
        }
        inside = inside || holds;
        to = n;
    }
    Ok((to, first, inside))
}

// What follows the ranges, in its order: the call file is judged before the call line is read. It reads the same four
// numbers as `head_tail`, which with two callers would stay a call that hands back five numbers through memory.
#[tactic(auto, unfolding(crate::specs::Judge::judged_rest, crate::specs::Head::children_and_name))]
fn judge_tail(s: &[u8], start: u64, inside: bool, at: usize) -> Result<JudgedNode, Fault>
    ensures { result ≡ judged_rest start inside s.now at }
{
    let (children, name) = children_and_name(s, at)?;
    let (file, m) = unsigned_at(s, at + 5)?;
    if MOST_FILE < file {
        return Err(Fault::CallFile);
    }
    let (line, next) = unsigned_at(s, m)?;
    Ok(JudgedNode {
        next,
        base: start,
        inside,
        children,
        frame: InlineFrame {
            name: StrOffset(name),
            call_file: FileIndex(file as u32),
            call_line: LineNumber(capped(line)),
        },
    })
}

// A node after its range count: its level, its ranges, and what follows them.
#[tactic(auto, unfolding(crate::specs::Judge::judged_node, crate::specs::Judge::spans_of))]
fn judge_node(s: &[u8], context: Context, count: u64, at: usize) -> Result<JudgedNode, Fault>
    ensures { result ≡ judged_node (inherited_of context) s.now count at }
{
    if DEEPEST_LEVEL < context.level {
        return Err(Fault::Level);
    }
    let (m, start, inside) = ranges(s, context, count, at)?;
    judge_tail(s, start, inside, m)
}

// What stands at the place `at`, where a judged node is looked for.
#[tactic(auto, unfolding(crate::specs::Judge::judged_at))]
pub(crate) fn judge_at(s: &[u8], context: Context, at: usize) -> Result<Head<JudgedNode>, Fault>
    ensures exact { result ≡ judged_at (inherited_of context) s.now at }
    ensures onward { GoesOn result (λ node. node.next) context.level at (length s.now) }
{
    let (count, first) = unsigned_at(s, at)?;
    if count == 0 {
        return Ok(Head::End(first));
    }
    let node = judge_node(s, context, count, first)?;
    Ok(Head::Node(node))
}
