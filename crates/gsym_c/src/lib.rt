//! What C hosts call; include/gsym.h is their manual. Each function hands its arguments on to `gsym`, and lays the
//! answer out as C has it: a number in place of a refusal, and zeros where there is nothing. The records of the lent
//! list are laid out so already. A call that hands records or an answer over has the number of their layout in its
//! name, so that an object compiled for another layout doesn't link; the header maps the plain names to these.
#![tactic(auto)]

mod laws;

ghost use Rattle.std.specs.Prelude.{◌≡◌, ◌≢◌, ◌↔◌, ◌≤◌, ◌⊎◌, true, false, length, take, drop, Ok, Result};
ghost use Rattle.gsym_types.specs.declared.Answer.{Answer};
ghost use Rattle.gsym_types.specs.declared.Refusal.{Refusal};
ghost use Rattle.gsym_types.specs.declared.Refusal.TheVariants.{UnreadLineHeader, TooWide};
ghost use Rattle.gsym_types.specs.Refusal.{number_of};
ghost use Rattle.gsym_inline.specs.Block.{block_of, room_of};
ghost use Rattle.gsym_inline.specs.ListsFrames.{ListsFrames};
ghost use Rattle.gsym_inline.specs.Steps.{steps_of};
ghost use Rattle.gsym_inline.specs.FirstFault.{FirstFault};
ghost use Rattle.gsym_parser.specs.Entries.{covered_by};
ghost use Rattle.gsym_resolver.specs.Lookup.{lookup_of};
ghost use Rattle.gsym_resolver.specs.Blocks.{RefusedByBlock, RefusedByHeader};
ghost use Rattle.gsym_resolver.specs.Met.{Met};
ghost use Rattle.gsym.specs.Lookups.{MeetsLookup};
ghost use Rattle.gsym_c.specs.Laid.{address, options_of, answered, answer_in, refused_as, listed, block_listed};

use gsym::{Address, Answer, Frame, InlineFrame, Options, Position, Refusal};
pub use laws::option_bits;

/// The version, 0.2.0, as include/gsym.h counts it.
const VERSION: u32 = 200;

/// What a lookup answers, as C has it (RULES, "Calls"). Every field but the number is 0 where that is not.
#[repr(C)]
#[derive(Clone, Copy, Debug, PartialEq, Eq, Default, Hash)]
pub struct GsymAnswer {
    /// 0 where there is an answer, and else the number of the refusal.
    // A number, and no `Result` around the rest: the C interface, whose hosts test it.
    pub number: u32,
    /// 1 where there is a position; else 0, and line, directory and file are 0 too.
    // No `Option` around line, directory and file: the C interface, which has none.
    pub has_code: u32,
    /// Where the symbol starts.
    pub addr: u64,
    /// Its size in bytes, 0 where it covers everything from its start on.
    pub size: u32,
    /// The line.
    pub line: u32,
    /// Where the symbol's name starts, in bytes from the start of the file.
    pub name_place: u64,
    /// How many bytes it has.
    pub name_len: u64,
    /// Where the directory starts, counted alike.
    pub dir_place: u64,
    /// How many bytes it has.
    pub dir_len: u64,
    /// Where the name of the source file starts, counted alike.
    pub file_place: u64,
    /// How many bytes it has.
    pub file_len: u64,
    /// How many records were written to the front of the lent list.
    pub count: u64,
}

/// What reading a block answers, as C has it (RULES, "Inline tree").
#[repr(C)]
#[derive(Clone, Copy, Debug, PartialEq, Eq, Default, Hash)]
pub struct GsymListed {
    /// How many frames were written to the front of the lent list, 0 where the block is refused.
    pub count: u64,
    /// 0 where the block reads, and else the number of the refusal.
    // A number, and no `Result`: the C interface, whose hosts test it.
    pub number: u32,
}

// ---- lookup

// What the bits ask for, which are C's. No `From`: `Options` and `u32` are both foreign here.
fn asked_by(bits: u32) -> Options
    ensures { result ≡ options_of bits }
{
    Options {
        code_info: bits % 2 == 1,
        inlining: bits / 2 % 2 == 1,
    }
}

impl From<Result<Answer, Refusal>> for GsymAnswer {
    ghost from_gives = { λ answer laid. laid ≡ answered answer };

    fn from(answer: Result<Answer, Refusal>) -> GsymAnswer {
        match answer {
            Ok(found) => {
                let has_code = u32::from(found.position.is_some());
                let position = found.position.unwrap_or_default();
                GsymAnswer {
                    number: 0,
                    has_code,
                    addr: found.addr.0,
                    size: found.size,
                    line: position.line.0,
                    name_place: found.name.place as u64,
                    name_len: found.name.len as u64,
                    dir_place: position.dir.place as u64,
                    dir_len: position.dir.len as u64,
                    file_place: position.file.place as u64,
                    file_len: position.file.len as u64,
                    count: found.count as u64,
                }
            }
            Err(refusal) => GsymAnswer {
                number: u32::from(refusal.number()),
                has_code: 0,
                addr: 0,
                size: 0,
                line: 0,
                name_place: 0,
                name_len: 0,
                dir_place: 0,
                dir_len: 0,
                file_place: 0,
                file_len: 0,
                count: 0,
            },
        }
    }
}

/// The symbol of an address, with what `options` ask for: bit 0 its source position, bit 1 the calls inlined there,
/// both or nothing of them; other bits are ignored. The records go to the front of `frames`, with room for as many
/// frames as it has places, and for 64 at most. Written are exactly the records; a refusal (1 to 15) writes none, and
/// without both bits the list isn't touched, nor is space for records filled (RULES, "Calls").
#[unsafe(no_mangle)]
pub extern "C" fn gsym_lookup_2(
    file: &[u8],
    addr: u64,
    options: u32,
    frames: &mut [Frame],
) -> GsymAnswer
    ensures number { result.number ≤ 15 }
    // A number from 1 on exactly where the condition of that refusal is met, of several the first in the order of
    // RULES.
    ensures refused { (r : Refusal) → (result.number ≡ number_of r)
        ↔ Met file.now (address addr) (options_of options) (room_of (length frames.old)) r }
    // Every other field is then 0, and the list as it was.
    ensures zeros { result.number ≢ 0 → (result ≡ refused_as result.number) × (frames.new ≡ frames.old) }
    // From 10 to 14 it is the first fault of one of the entry's blocks, the first that doesn't list none.
    ensures blocks { (r : Refusal) → result.number ≡ number_of r → 10 ≤ result.number → result.number ≤ 14
        → RefusedByBlock file.now (address addr) (options_of options) (room_of (length frames.old)) r }
    // 9 is the header's of one of its line tables, the first that doesn't give none.
    ensures header { result.number ≡ 9
        → RefusedByHeader file.now (address addr) (options_of options) (room_of (length frames.old))
        UnreadLineHeader }
    // 15 is either's: a number there is too wide.
    ensures wide { result.number ≡ 15
        → RefusedByBlock file.now (address addr) (options_of options) (room_of (length frames.old)) TooWide
        ⊎ RefusedByHeader file.now (address addr) (options_of options) (room_of (length frames.old)) TooWide }
    // Without code info it is at most 6, without inlining at most 9, or 15.
    ensures no_code_info { (options_of options).code_info ≡ false → result.number ≤ 6 }
    ensures no_inlining { (options_of options).inlining ≡ false → (result.number ≤ 9) ⊎ (result.number ≡ 15) }
    ensures covered { result.number ≡ 0
        → covered_by (address addr) (address result.addr) result.size ≡ true }
    ensures below { result.addr ≤ addr }
    ensures within { result.count ≤ length frames.new }
    ensures stays { drop result.count frames.new ≡ drop result.count frames.old }
    ensures bare { ((options_of options).code_info ≡ false) ⊎ ((options_of options).inlining ≡ false)
        → frames.new ≡ frames.old }
    ensures exact { result ≡ answered
        (answer_in (lookup_of file.now (address addr) (options_of options) (room_of (length frames.old)))) }
    // It is the answer of `gsym::lookup`, with all that that promises, laid out as C has it.
    ensures promises { (found : Result Answer Refusal) × (result ≡ answered found)
        × MeetsLookup file.now (address addr) (options_of options) found frames.old frames.new }
{
    let found = gsym::open(file).lookup(Address(addr), asked_by(options), frames);
    GsymAnswer::from(found)
}

// ---- a single block

impl From<Result<usize, Refusal>> for GsymListed {
    ghost from_gives = { λ read laid. laid ≡ listed read };

    fn from(read: Result<usize, Refusal>) -> GsymListed {
        match read {
            Ok(count) => GsymListed {
                count: count as u64,
                number: 0,
            },
            Err(fault) => GsymListed {
                count: 0,
                number: u32::from(fault.number()),
            },
        }
    }
}

/// The frames of one block at an address, for the symbol that it belongs to: `gsym::block_frames`. There is room for as
/// many as the list has places, and for 64 at most. Written are exactly the frames; a refusal (10 to 15) writes none
/// (RULES, "Inline tree").
#[unsafe(no_mangle)]
pub extern "C" fn gsym_block_frames_2(
    block: &[u8],
    symbol: u64,
    addr: u64,
    frames: &mut [InlineFrame],
) -> GsymListed
    ensures number { result.number ≤ 15 }
    // 0 exactly if the block reads: the list then begins with its frames, those of its open nodes that have a name.
    ensures listed { (result.number ≡ 0)
        ↔ ListsFrames symbol addr (room_of (length frames.old)) block.now (take result.count frames.new) }
    // Another number exactly if it is that of the first fault among the steps of reading the block.
    ensures refused { (r : Refusal) → (result.number ≡ number_of r)
        ↔ FirstFault (room_of (length frames.old)) (steps_of symbol addr block.now) r }
    ensures zeros { result.number ≢ 0 → (result.count ≡ 0) × (frames.new ≡ frames.old) }
    ensures within { (result.count ≤ length frames.new) × (result.count ≤ 64) }
    ensures stays { drop result.count frames.new ≡ drop result.count frames.old }
    ensures exact { result ≡ block_listed (block_of symbol addr (room_of (length frames.old)) block.now) }
    ensures list { result.number ≡ 0
        → Ok (take result.count frames.new) ≡ block_of symbol addr (room_of (length frames.old)) block.now }
{
    GsymListed::from(gsym::block_frames(block, Address(symbol), Address(addr), frames))
}

/// The version of the library, as include/gsym.h counts it (RULES, "Calls").
#[unsafe(no_mangle)]
pub extern "C" fn gsym_version() -> u32
    ensures { result ≡ 200 }
{
    VERSION
}
