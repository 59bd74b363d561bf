//! Parts of the reader for programs that compare and measure them from C or Rust: each function here only hands its
//! arguments on and lays the answer out as C has it. What a host should call is `gsym_c`'s business.
#![tactic(auto)]

ghost use Rattle.std.specs.Prelude.{◌≡◌, ◌≢◌, length, take, drop, Ok};
ghost use Rattle.gsym_leb128.specs.Answers.{unsigned_at, signed_at};
ghost use Rattle.gsym_linetab.specs.Rows.{line_row};
ghost use Rattle.gsym_inline.specs.Block.{block_of, room_of};
ghost use Rattle.reader_c.specs.Laid.{numberless, laid_unsigned, laid_signed};
ghost use Rattle.reader_c.specs.Laid.{address, rowless, laid_line, laid_block};

use gsym::{Address, InlineFrame};
use gsym_leb128::Cause;
use gsym_linetab::LineTableRow;

/// A LEB128 number (RULES, "LEB128"). Where there is no value every field but the tag is 0.
#[repr(C)]
#[derive(Clone, Copy, Debug, PartialEq, Eq, Default, Hash)]
pub struct NumberAnswer {
    /// Its value, a signed one as its 64 bits.
    pub value: u64,
    /// The place after it.
    pub next: usize,
    /// 0: there is a value; 1: the number ended short; 2: it is too wide.
    pub tag: u32,
}

// As C has it: a tag in place of the cause, and zeros beside it; C has no `Result`.
fn unread(cause: Cause) -> NumberAnswer
    ensures { result ≡ numberless cause }
{
    let tag = match cause {
        Cause::Short => 1,
        Cause::Wide => 2,
    };
    NumberAnswer {
        value: 0,
        next: 0,
        tag,
    }
}

/// The unsigned number at a place: `gsym_leb128::unsigned_at` (RULES, "LEB128").
#[unsafe(no_mangle)]
pub extern "C" fn gsym_unsigned(bytes: &[u8], at: usize) -> NumberAnswer
    ensures { result ≡ laid_unsigned (unsigned_at bytes.now at) }
{
    match gsym_leb128::unsigned_at(bytes, at) {
        Ok((value, next)) => NumberAnswer {
            value,
            next,
            tag: 0,
        },
        Err(cause) => unread(cause),
    }
}

/// The signed number at a place: `gsym_leb128::signed_at` (RULES, "LEB128").
#[unsafe(no_mangle)]
pub extern "C" fn gsym_signed(bytes: &[u8], at: usize) -> NumberAnswer
    ensures { result ≡ laid_signed (signed_at bytes.now at) }
{
    // Beside `gsym_unsigned`, since C calls each by its name.
    match gsym_leb128::signed_at(bytes, at) {
        Ok((value, next)) => NumberAnswer {
            value: value.cast_unsigned(),
            next,
            tag: 0,
        },
        Err(why) => unread(why),
    }
}

/// The row of an address (RULES, "Line table"). Where there is no row every field but the tag is 0.
#[repr(C)]
#[derive(Clone, Copy, Debug, PartialEq, Eq, Default, Hash)]
pub struct LineAnswer {
    /// The first address of the row.
    pub addr: u64,
    /// The row of the file table.
    pub file: u32,
    /// The line.
    pub line: u32,
    /// 0: there is a row; 1: there is none; 2: the header ended short; 3: a number of it is too wide.
    pub tag: u32,
}

// As C has it: a tag says why there is no row, and zeros stand beside it; C has no `Option`.
fn without_row(tag: u32) -> LineAnswer
    ensures { result ≡ rowless tag }
{
    LineAnswer {
        addr: 0,
        file: 0,
        line: 0,
        tag,
    }
}

// As C has it: a structure with a tag in place of the nested `Result` and `Option`.
fn laid_line(read: Result<Option<LineTableRow>, Cause>) -> LineAnswer
    ensures { result ≡ laid_line read }
{
    match read {
        Ok(Some(row)) => LineAnswer {
            addr: row.addr.0,
            file: row.file_idx.0,
            line: row.file_line.0,
            tag: 0,
        },
        Ok(None) => without_row(1),
        Err(Cause::Short) => without_row(2),
        Err(Cause::Wide) => without_row(3),
    }
}

/// The row of `addr` in a line table of the symbol at `symbol`: `gsym_linetab::line_row` (RULES, "Line table").
#[unsafe(no_mangle)]
pub extern "C" fn gsym_line_row(block: &[u8], symbol: u64, addr: u64) -> LineAnswer
    ensures { result ≡ laid_line (line_row block.now (address symbol) (address addr)) }
{
    laid_line(gsym_linetab::line_row(block, Address(symbol), Address(addr)))
}

/// What reading one inline block gives (RULES, "Inline tree").
#[repr(C)]
#[derive(Clone, Copy, Debug, PartialEq, Eq, Default, Hash)]
pub struct BlockAnswer {
    /// How many frames, 0 where the block is refused.
    pub count: usize,
    /// The number of the refusal, 0 where there is none.
    // As C has it.
    pub number: u8,
}

/// The frames of one block at an address, to the front of `frames`: `gsym::block_frames`
/// (RULES, "Inline tree").
#[unsafe(no_mangle)]
pub extern "C" fn gsym_block(
    block: &[u8],
    symbol: u64,
    addr: u64,
    frames: &mut [InlineFrame],
) -> BlockAnswer
    ensures answer { result ≡ laid_block (block_of symbol addr (room_of (length frames.old)) block.now) }
    ensures stays { drop result.count frames.new ≡ drop result.count frames.old }
    ensures kept { result.number ≢ 0 → frames.new ≡ frames.old }
    ensures list { result.number ≡ 0
        → Ok (take result.count frames.new) ≡ block_of symbol addr (room_of (length frames.old)) block.now }
{
    match gsym::block_frames(block, Address(symbol), Address(addr), frames) {
        Ok(count) => BlockAnswer { count, number: 0 },
        Err(refusal) => BlockAnswer {
            count: 0,
            number: refusal.number(),
        },
    }
}
