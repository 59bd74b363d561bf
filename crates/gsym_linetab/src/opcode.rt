//! What each opcode does to a row (RULES, "Line table"). An operand that doesn't read stops the program.
ghost use Rattle.std.specs.Prelude.{◌≡◌, pos, int_div, int_rem};
ghost use Rattle.gsym_linetab.specs.Machine.{set_file, advance_pc, advance_line, line_after, addr_after, range_of};
ghost use Rattle.gsym_linetab.specs.Machine.{special_of};

use super::{Ending, LineState, LineTableHeader, LineTableRow};
use gsym_types::{Address, FileIndex, LineNumber};

// Opcode 1, whose operand is at `at`: the file becomes that number modulo 2^32.
#[tactic(auto, unfolding(crate::specs::Machine::set_file))]
pub(crate) fn set_file(ops: &[u8], row: LineTableRow, at: usize) -> Result<LineState, Ending>
    ensures { result ≡ set_file ops.now row at }
{
    let (value, next) = gsym_leb128::unsigned_at(ops, at)?;
    let file = (value % 0x1_0000_0000) as u32;
    let row = LineTableRow {
        file_idx: FileIndex(file),
        ..row
    };
    Ok(LineState { row, at: next })
}

// Opcode 2: addresses wrap modulo 2^64.
#[tactic(auto, unfolding(crate::specs::Machine::advance_pc))]
pub(crate) fn advance_pc(ops: &[u8], row: LineTableRow, at: usize) -> Result<LineState, Ending>
    ensures { result ≡ advance_pc ops.now row at }
{
    let (value, next) = gsym_leb128::unsigned_at(ops, at)?;
    let to = row.addr.0.wrapping_add(value);
    let row = LineTableRow {
        addr: Address(to),
        ..row
    };
    Ok(LineState { row, at: next })
}

// Opcode 3: lines wrap modulo 2^32.
#[tactic(auto, unfolding(crate::specs::Machine::advance_line))]
pub(crate) fn advance_line(ops: &[u8], row: LineTableRow, at: usize) -> Result<LineState, Ending>
    ensures { result ≡ advance_line ops.now row at }
{
    let (change, next) = gsym_leb128::signed_at(ops, at)?;
    let file_line = line_after(row.file_line, change);
    let row = LineTableRow { file_line, ..row };
    Ok(LineState { row, at: next })
}

/// The line moved by a signed change, modulo 2^32 (RULES, "Line table"). Of the change the low 32 bits count alone.
pub fn line_after(line: LineNumber, change: i64) -> LineNumber
    ensures { result ≡ line_after line change }
{
    let low = (change.cast_unsigned() % 0x1_0000_0000) as u32;
    LineNumber(line.0.wrapping_add(low))
}

/// The address moved by a signed number of bytes, modulo 2^64 (RULES, "Line table"). A negative number moves it back.
pub fn addr_after(addr: Address, steps: i64) -> Address
    ensures { result ≡ addr_after addr steps }
{
    Address(addr.0.wrapping_add_signed(steps))
}

// How many line changes the special opcodes tell apart: max - min + 1, as a signed 64-bit number.
#[tactic(auto, using(crate::proofs::Numbers::range_is), unfolding(crate::specs::Machine::range_of))]
pub(crate) fn range_of(header: LineTableHeader) -> i64
    ensures { result ≡ range_of header }
{
    let span = header.max_delta.wrapping_sub(header.min_delta);
    span.wrapping_add(1)
}

/// How far the opcode `a` above the first special one moves the address, in bytes: `a` divided by the range, rounded
/// toward zero, so that a negative range gives a negative quotient or 0 (RULES, "Line table"). At a range of 0, where
/// the program stops before it divides, it is 0.
#[tactic(auto, using(crate::proofs::Numbers::quotient_is))]
pub fn quotient(a: u8, range: i64) -> i64
    ensures { result ≡ int_div (pos a) range }
{
    if range == 0 {
        return 0;
    }
    let a = i64::from(a);
    a / range
}

/// How far it moves the line beyond min: what that quotient leaves, never negative, whatever the sign of the range
/// (RULES, "Line table"). At a range of 0 all of `a` is left.
#[tactic(auto, using(crate::proofs::Numbers::remainder_is))]
pub fn remainder(a: u8, range: i64) -> i64
    ensures { result ≡ int_rem (pos a) range }
{
    let a = i64::from(a);
    if range == 0 {
        return a;
    }
    a % range
}

// A special opcode, `a` above the first one. A range of 0 stops the program; a negative one moves the address back.
#[tactic(auto, using(crate::proofs::Numbers::specials))]
pub(crate) fn special(
    header: LineTableHeader,
    row: LineTableRow,
    a: u8,
    next: usize,
) -> Result<LineState, Ending>
    ensures { result ≡ special_of header row a next }
{
    let range = range_of(header);
    if range == 0 {
        return Err(Ending::Stopped);
    }
    let delta = header.min_delta.wrapping_add(remainder(a, range));
    let row = LineTableRow {
        addr: addr_after(row.addr, quotient(a, range)),
        file_line: line_after(row.file_line, delta),
        ..row
    };
    Ok(LineState { row, at: next })
}
