//! Lookup (RULES, from "Header and tables" to "Putting the answer together"): the symbol of an address, its source
//! position, and the calls inlined there, on any bytes.
//!
//!     landing        the entry of the address, its size and its name
//!     address_data   what the entry's items say: a row, and frames
//!     positions      source positions
//!     later_frames   the later frames as records, with positions moved up
//!     laws           theorems on the definitions, as contracts of functions that do nothing
#![tactic(auto)]

mod address_data;
mod landing;
mod later_frames;
mod laws;
mod positions;

ghost use Rattle.std.specs.Prelude.{◌≡◌, ◌≤◌, ◌↔◌, ◌⊎◌, ◌++◌, true, false, [], min, length, take, drop};
ghost use Rattle.std.specs.Prelude.{IfOk, IfErr, OnErr, IsErrOf};
ghost use Rattle.gsym_types.specs.declared.Refusal.{Refusal};
ghost use Rattle.gsym_types.specs.Refusal.{number_of};
ghost use Rattle.gsym_inline.specs.Block.{room_of};
ghost use Rattle.gsym_parser.specs.View.{view};
ghost use Rattle.gsym_resolver.specs.Lookup.{landing_of, answer_of, with_frames, with_code, lookup_of, looked_up};
ghost use Rattle.gsym_resolver.specs.Lookup.{plain_options, all_options, records_asked, records_in};
ghost use Rattle.gsym_resolver.specs.Met.{Met};
ghost use Rattle.gsym_resolver.specs.Answered.{Answered};

use address_data::{row_and_frames, row_of};
use arrayvec::ArrayVec;
use gsym_parser::GsymContext;
use gsym_types::{
    Address, Answer, Frame, InlineFrame, MAX_FRAMES, Options, Position, Refusal, Text,
};
use landing::{Entry, land};
use later_frames::push_later;
pub use laws::{
    entry_landed_on, marked_examples, more_room, refusals_by_option, refused_or_answered,
    texts_from_values, told_in_values, whole_lookups,
};
use positions::position_at;

/// The records of a lookup, which are fewer than the frames of a block (RULES, "Putting the answer together").
pub type Records = ArrayVec<Frame, MAX_FRAMES>;

/// The symbol of an address, with its source position if code info is asked for and a line table has one, and without
/// inlined calls, so that no list is lent and none is kept (RULES, "Calls"). Refused with 1 to 9, or 15.
#[tactic(auto, using(crate::proofs::Calls::call_plain))]
pub fn lookup_plain(file: &[u8], addr: Address, code_info: bool) -> Result<Answer, Refusal>
    // refused exactly with the refusal whose condition is the first met, in the order of RULES
    ensures refused { (r : Refusal) → IsErrOf result r ↔ Met file.now addr (plain_options code_info) 0 r }
    // else it says what the data of the entry say that the address lands on
    ensures answered { IfOk result (λ a.
        Answered file.now addr (plain_options code_info) 0 (record { answer = a; frames = [] })) }
    ensures number { IfErr result (λ r. (number_of r ≤ 9) ⊎ (number_of r ≡ 15)) }
    ensures below { IfOk result (λ a. a.addr.0 ≤ addr.0) }
    ensures exact { looked_up result [] ≡ lookup_of file.now addr (plain_options code_info) 0 }
{
    // Apart from `lookup_in`: nothing is kept for frames here (DECISIONS, D21).
    found_plain(file, addr, code_info)
}

/// The symbol of an address with all that is asked for. The later frames become records, in the place of what the list
/// had. There is room for `room` frames, which count the block's first one, though that becomes no record, for as many
/// as the list has places, and for 64 at most (RULES, "Inline tree"). Where both options are asked for a refusal, 1 to
/// 15, leaves the list empty; without both the list isn't touched, refused or not (RULES, "Calls").
pub fn lookup_in<const N: usize>(
    file: &[u8],
    addr: Address,
    options: Options,
    room: usize,
    records: &mut ArrayVec<Frame, N>,
) -> Result<Answer, Refusal>
    // refused exactly with the refusal whose condition is the first met, in the order of RULES
    ensures refused { (r : Refusal) → IsErrOf result r ↔ Met file.now addr options (room_of (min N room)) r }
    // else answer and records say what the data of the entry say that the address lands on
    ensures answered { IfOk result (λ a. Answered file.now addr options (room_of (min N room))
        (record { answer = a; frames = records_asked options records.new.items })) }
    ensures empty { options.code_info ≡ true → options.inlining ≡ true → IfErr result (λ _. records.new.items ≡ []) }
    // without both options the list is as it was, also where the lookup is refused
    ensures bare { (options.code_info ≡ false) ⊎ (options.inlining ≡ false) → records.new ≡ records.old }
    ensures below { IfOk result (λ a. a.addr.0 ≤ addr.0) }
    ensures exact { looked_up result (records_asked options records.new.items)
        ≡ lookup_of file.now addr options (room_of (min N room)) }
{
    lookup_by(file, addr, options, room, records)
}

/// The symbol of an address with position and inlined calls. The later frames become records, written over the first
/// ones of `records`; those past the count stay as they are, and a refusal, 1 to 15, changes none (RULES, "Calls").
/// There is room for as many frames as the list has places, and for 64 at most; they count the block's first one, though
/// that becomes no record (RULES, "Inline tree").
pub fn lookup_over(file: &[u8], addr: Address, records: &mut [Frame]) -> Result<Answer, Refusal>
    // refused exactly with the refusal whose condition is the first met, in the order of RULES
    ensures refused { (r : Refusal) → IsErrOf result r
        ↔ Met file.now addr all_options (room_of (length records.old)) r }
    // else answer and records say what the data of the entry say that the address lands on
    ensures answered { IfOk result (λ a. Answered file.now addr all_options (room_of (length records.old))
        (record { answer = a; frames = take a.count records.new })) }
    ensures below { IfOk result (λ a. a.addr.0 ≤ addr.0) }
    ensures stays { IfOk result (λ a. drop a.count records.new ≡ drop a.count records.old) }
    ensures kept { OnErr result (records.new ≡ records.old) }
    ensures exact { looked_up result (records_in result records.new)
        ≡ lookup_of file.now addr all_options (room_of (length records.old)) }
{
    found_over(file, addr, records)
}

// ---- without inlined calls

// `lookup_plain`, held to the definition alone.
#[inline(always)]
#[tactic(auto, unfolding(crate::specs::Lookup::lookup_of))]
fn found_plain(file: &[u8], addr: Address, code_info: bool) -> Result<Answer, Refusal>
    ensures { looked_up result [] ≡ lookup_of file.now addr (plain_options code_info) 0 }
{
    let context = GsymContext::parse_header(file)?;
    let entry = land(&context, addr)?;
    if !code_info {
        return Ok(answer_of(&entry, entry.name, None, 0));
    }
    at_row(&context, &entry, addr)
}

// The symbol of an entry at its row's position, or alone where there is no row.
#[tactic(auto, unfolding(crate::specs::Lookup::with_code, crate::specs::Lookup::with_row, crate::specs::Lookup::with_frames))]
fn at_row(context: &GsymContext<'_>, entry: &Entry<'_>, addr: Address) -> Result<Answer, Refusal>
    ensures { looked_up result [] ≡ with_code (view context.now) (landing_of entry.now) addr false 0 }
{
    let Some(row) = row_of(entry.bytes, entry.symbol, addr)? else {
        return Ok(answer_of(entry, entry.name, None, 0));
    };
    let position = position_at(context, row.file_idx, row.file_line)?;
    Ok(answer_of(entry, entry.name, Some(position), 0))
}

// ---- with inlined calls

// `lookup_in`, held to the definition alone.
#[tactic(auto, using(crate::proofs::Unasked::lookup_unasked))]
fn lookup_by<const N: usize>(
    file: &[u8],
    addr: Address,
    options: Options,
    room: usize,
    records: &mut ArrayVec<Frame, N>,
) -> Result<Answer, Refusal>
    ensures empty { options.code_info ≡ true → options.inlining ≡ true → IfErr result (λ _. records.new.items ≡ []) }
    ensures bare { (options.code_info ≡ false) ⊎ (options.inlining ≡ false) → records.new ≡ records.old }
    ensures exact { looked_up result (records_asked options records.new.items)
        ≡ lookup_of file.now addr options (room_of (min N room)) }
{
    if !(options.code_info && options.inlining) {
        return found_plain(file, addr, options.code_info);
    }
    records.clear();
    // By `match`: of `inspect_err` the proof doesn't know what its closure leaves in the list (DECISIONS, D38).
    match lookup_frames(file, addr, N.min(room), records) {
        Ok(answer) => Ok(answer),
        Err(refusal) => {
            records.clear();
            Err(refusal)
        }
    }
}

// The symbol of an address with position and inlined calls, where there is room for `room` frames. The records go into
// an empty list.
#[tactic(auto, unfolding(crate::specs::Lookup::lookup_of, crate::specs::Lookup::with_code, crate::specs::Lookup::with_row))]
fn lookup_frames<const N: usize>(
    file: &[u8],
    addr: Address,
    room: usize,
    records: &mut ArrayVec<Frame, N>,
) -> Result<Answer, Refusal>
    // The room and the list are two arguments, and no type of one says it; `lookup_by` has just cleared the list.
    requires fits { room ≤ N }
    requires empty { records.old.items ≡ [] }
    ensures { looked_up result records.new.items ≡ lookup_of file.now addr all_options (room_of room) }
{
    let context = GsymContext::parse_header(file)?;
    let entry = land(&context, addr)?;
    let mut frames = ArrayVec::new();
    let Some(row) = row_and_frames(entry.bytes, entry.symbol, addr, room, &mut frames)? else {
        return Ok(answer_of(&entry, entry.name, None, 0));
    };
    let position = position_at(&context, row.file_idx, row.file_line)?;
    with_frames(&context, &entry, position, frames.as_slice(), records)
}

// The symbol of an entry at its row's position, with the frames of a block: the first only gives its name, the others
// become records, in an empty list with room for them.
#[inline(always)]
#[tactic(auto, unfolding(crate::specs::Lookup::with_frames, crate::specs::Lookup::later_frames))]
fn with_frames<const N: usize>(
    context: &GsymContext<'_>,
    entry: &Entry<'_>,
    row: Position,
    frames: &[InlineFrame],
    records: &mut ArrayVec<Frame, N>,
) -> Result<Answer, Refusal>
    // The frames and the list are two arguments, and no type of one says it; `lookup_by` has just cleared the list.
    requires fits { length frames.now ≤ N }
    requires empty { records.old.items ≡ [] }
    ensures { looked_up result records.new.items
        ≡ with_frames (view context.now) (landing_of entry.now) row frames.now }
{
    let Some((first, later)) = frames.split_first() else {
        return Ok(answer_of(entry, entry.name, Some(row), 0));
    };
    let name = context.name_at(first.name).ok_or(Refusal::UnreadName)?;
    let position = push_later(context, later, row, records)?;
    Ok(answer_of(entry, name, Some(position), records.len()))
}

// ---- with inlined calls, over a slice

// How many frames there may be for the shorter lists of records. Most addresses have fewer than the first; the second
// is the longest list of less than 2 KiB, above which filling it costs far more (DECISIONS, D26).
const FIRST_FRAMES: usize = 16;

const SECOND_FRAMES: usize = 36;

// `lookup_over`, held to the definition alone. The frames are read once, and tell how long the list of records has to
// be: a long one costs more to fill than most lookups cost (DECISIONS, D26).
#[inline(always)]
#[tactic(auto, unfolding(crate::specs::Lookup::lookup_of, crate::specs::Lookup::with_code, crate::specs::Lookup::with_row))]
fn found_over(file: &[u8], addr: Address, records: &mut [Frame]) -> Result<Answer, Refusal>
    ensures stays { IfOk result (λ a. drop a.count records.new ≡ drop a.count records.old) }
    ensures kept { OnErr result (records.new ≡ records.old) }
    ensures exact { looked_up result (records_in result records.new)
        ≡ lookup_of file.now addr all_options (room_of (length records.old)) }
{
    let context = GsymContext::parse_header(file)?;
    let entry = land(&context, addr)?;
    let mut frames = ArrayVec::new();
    let lent = records.len();
    let Some(row) = row_and_frames(entry.bytes, entry.symbol, addr, lent, &mut frames)? else {
        return Ok(answer_of(&entry, entry.name, None, 0));
    };
    let position = position_at(&context, row.file_idx, row.file_line)?;
    if frames.len() <= FIRST_FRAMES {
        place::<FIRST_FRAMES>(&context, &entry, position, frames.as_slice(), records)
    } else if frames.len() <= SECOND_FRAMES {
        place_apart::<SECOND_FRAMES>(&context, &entry, position, frames.as_slice(), records)
    } else {
        place_apart::<MAX_FRAMES>(&context, &entry, position, frames.as_slice(), records)
    }
}

// `place` as a call of its own, so that a long list stands apart from the first one, and a lookup that doesn't need it
// has no room for it.
#[inline(never)]
fn place_apart<const N: usize>(
    context: &GsymContext<'_>,
    entry: &Entry<'_>,
    row: Position,
    frames: &[InlineFrame],
    records: &mut [Frame],
) -> Result<Answer, Refusal>
    // As of `place`.
    requires bounded { N ≤ 64 }
    requires fits { length frames.now ≤ N }
    requires lent { length frames.now ≤ length records.old }
    ensures stays { IfOk result (λ a. drop a.count records.new ≡ drop a.count records.old) }
    ensures kept { OnErr result (records.new ≡ records.old) }
    ensures exact { looked_up result (records_in result records.new)
        ≡ with_frames (view context.now) (landing_of entry.now) row frames.now }
{
    place::<N>(context, entry, row, frames, records)
}

// The symbol of an entry at its row's position, with the frames of a block. The records go to a list of its own, and
// over the first ones of `records` once nothing refuses any more.
#[inline(always)]
fn place<const N: usize>(
    context: &GsymContext<'_>,
    entry: &Entry<'_>,
    row: Position,
    frames: &[InlineFrame],
    records: &mut [Frame],
) -> Result<Answer, Refusal>
    // It bounds a constant that each call names, which no type does.
    requires bounded { N ≤ 64 }
    // The frames and the two lists are three arguments, and no type of one says it; `found_over` chooses N by them.
    requires fits { length frames.now ≤ N }
    requires lent { length frames.now ≤ length records.old }
    ensures stays { IfOk result (λ a. drop a.count records.new ≡ drop a.count records.old) }
    ensures kept { OnErr result (records.new ≡ records.old) }
    ensures exact { looked_up result (records_in result records.new)
        ≡ with_frames (view context.now) (landing_of entry.now) row frames.now }
{
    let mut made: ArrayVec<Frame, N> = ArrayVec::new();
    let answer = with_frames(context, entry, row, frames, &mut made)?;
    copy_records(made.as_slice(), records);
    Ok(answer)
}

// Copies records to the front of a slice that has room for them. Field by field, and not by `copy_from_slice`: that
// calls `memcpy`, which a host would have to bring along (DECISIONS, D58).
fn copy_records(made: &[Frame], records: &mut [Frame])
    requires { length made.now ≤ length records.old }
    ensures { records.new ≡ made.now ++ drop (length made.now) records.old }
{
    for i in 0..made.len() {
        let record = made[i];
        records[i] = Frame {
            name: record.name,
            position: record.position,
        };
    }
}

// ---- an answer

// The symbol of an entry under a name, at a position or none, with so many records written.
fn answer_of(entry: &Entry<'_>, name: Text, position: Option<Position>, count: usize) -> Answer
    ensures { result ≡ answer_of (landing_of entry.now) name position count }
{
    Answer {
        addr: entry.symbol,
        name,
        position,
        count,
        size: entry.size,
    }
}
