//! The line table of a symbol: its header, its program one opcode at a time, and the row of an address (RULES, "Line
//! table"). A header that doesn't read is told with its cause, and `header_refusal` says which refusal that is.
#![tactic(auto)]

mod laws;
mod opcode;
mod quick;

ghost use Rattle.std.specs.Prelude.{◌≡◌, ◌↔◌, ◌≤◌, IfOk, IsErrOf, Ok, Err, length};
ghost use Rattle.gsym_linetab.specs.declared.Ending.TheVariants.{Stopped, UsedUp};
ghost use Rattle.gsym_linetab.specs.Machine.{header_of, start_row, step_of};
ghost use Rattle.gsym_linetab.specs.Unread.{IsUnread, IsStop, header_refusal};
ghost use Rattle.gsym_linetab.specs.Rows.{Run, run_of, row_for, row_from, table_of, line_row};
ghost use Rattle.gsym_linetab.specs.RowFor.{IsRowFor};
ghost use Rattle.gsym_linetab.specs.Endings.{ending_of, LineInFull, LineStops, EndsInFull};

use gsym_leb128::Cause;
use gsym_types::{Address, FileIndex, LineNumber, Refusal};
pub use laws::{cut_headers, left_and_gone_on_with, whole_table};
pub use opcode::{addr_after, line_after, quotient, remainder};
use opcode::{advance_line, advance_pc, range_of, set_file, special};
use quick::{Plan, first_maker, quick_rows};

// The opcodes are the format's own numbers, and 251 more share a case with the last: they are no enum.

/// The end of the program.
const END_SEQUENCE: u8 = 0;

/// Sets the file, makes no row.
const SET_FILE: u8 = 1;

/// Advances the address and makes a row.
const ADVANCE_PC: u8 = 2;

/// Changes the line, makes no row.
const ADVANCE_LINE: u8 = 3;

/// This opcode and all above it change line and address and make a row.
const FIRST_SPECIAL: u8 = 4;

/// What stands before the program: which line changes special opcodes make, and the line at the symbol's address
/// (RULES, "Line table").
#[derive(Clone, Copy, Debug, PartialEq, Eq, Default, Hash)]
pub struct LineTableHeader {
    /// The least line change of a special opcode.
    pub min_delta: i64,
    /// The greatest.
    pub max_delta: i64,
    /// The first line: the header's number modulo 2^32.
    pub first_line: LineNumber,
}

/// A row of the table: from this address on, up to the next row's, the code is of this file and line (RULES, "Line
/// table").
#[derive(Clone, Copy, Debug, PartialEq, Eq, Default, Hash)]
pub struct LineTableRow {
    /// The first address of the row.
    pub addr: Address,
    /// The row of the file table.
    pub file_idx: FileIndex,
    /// The line in that file.
    pub file_line: LineNumber,
}

/// The machine between two opcodes (RULES, "Line table"). A caller may keep it and go on from it later.
#[derive(Clone, Copy, Debug, PartialEq, Eq, Default, Hash)]
pub struct LineState {
    /// Address, file and line as the opcodes so far left them.
    pub row: LineTableRow,
    /// Where the next opcode stands, in bytes from the start of the table.
    pub at: usize,
}

/// What an opcode did that ran (RULES, "Line table").
// No flag beside the state, which could be left unasked.
#[derive(Clone, Copy, Debug, PartialEq, Eq, Hash)]
pub enum RunResult {
    /// It made no row.
    Ok(LineState),
    /// The state's row is one of the table.
    NewRow(LineState),
}

/// Why a program ended (RULES, "Line table"). None of these is a refusal.
#[derive(Clone, Copy, Debug, PartialEq, Eq, Hash)]
pub enum Ending {
    /// Opcode 0, with the place after it.
    EndSequence(usize),
    /// A special opcode where the range is 0, or an operand that doesn't read.
    // No Option here or at the next: each is one ending beside others.
    Stopped,
    /// There is no byte at the place of the next opcode.
    UsedUp,
}

impl From<Cause> for Ending {
    ghost from_gives = { λ _ ending. ending ≡ Stopped };

    fn from(_cause: Cause) -> Ending {
        Ending::Stopped
    }
}

/// The header at `at` and the place after it. `Short` where a number's bytes end before it does, `Wide` where a number
/// is too wide: the first number that doesn't read decides (RULES, "Line table").
#[tactic(auto, unfolding(crate::specs::Machine::header_of))]
pub fn parse(block: &[u8], at: usize) -> Result<(LineTableHeader, usize), Cause>
    ensures exact { result ≡ header_of block.now at }
    ensures refused { (cause : Cause) → IsErrOf result cause ↔ IsUnread block.now at cause }
{
    let (min_delta, max_at) = gsym_leb128::signed_at(block, at)?;
    let (max_delta, line_at) = gsym_leb128::signed_at(block, max_at)?;
    let (line, next) = gsym_leb128::unsigned_at(block, line_at)?;
    let first_line = LineNumber((line % 0x1_0000_0000) as u32);
    let header = LineTableHeader {
        min_delta,
        max_delta,
        first_line,
    };
    Ok((header, next))
}

/// The refusal of a header that doesn't read: 9 where a number is cut short, 15 where it is too wide (RULES, "Line
/// table").
pub fn header_refusal(cause: Cause) -> Refusal
    ensures { result ≡ header_refusal cause }
{
    match cause {
        Cause::Short => Refusal::UnreadLineHeader,
        Cause::Wide => Refusal::TooWide,
    }
}

/// The state's row before the first opcode: the symbol's address, file 1, the first line (RULES, "Line table").
pub fn from_header(header: LineTableHeader, symbol: Address) -> LineTableRow
    ensures { result ≡ start_row header symbol }
{
    LineTableRow {
        addr: symbol,
        file_idx: FileIndex(1),
        file_line: header.first_line,
    }
}

/// Runs the opcode at the state's place, or says why the program ends there (RULES, "Line table"). A place past the end
/// is `UsedUp`.
// In a program that both looks up and checks it has two callers, and would stay a call, which hands its state through
// memory (docs/DECISIONS.md, D47).
#[inline(always)]
#[tactic(auto, using(std::proofs::lemmas::Option::gets, std::proofs::lemmas::Bool::Decides::nat_tests), unfolding(crate::specs::Machine::step_of))]
pub fn run_op(header: LineTableHeader, ops: &[u8], state: LineState) -> Result<RunResult, Ending>
    ensures exact { result ≡ step_of header ops.now state }
    ensures stopped { (result ≡ Err Stopped) ↔ IsStop header ops.now state }
    ensures used_up { (result ≡ Err UsedUp) ↔ (length ops.now ≤ state.at) }
{
    let at = state.at;
    let row = state.row;
    if ops.len() <= at {
        return Err(Ending::UsedUp);
    }
    let op = ops[at];
    let next = at + 1;
    // No table of functions: a byte of the file decides, and not a caller.
    match op {
        END_SEQUENCE => Err(Ending::EndSequence(next)),
        SET_FILE => Ok(RunResult::Ok(set_file(ops, row, next)?)),
        ADVANCE_PC => Ok(RunResult::NewRow(advance_pc(ops, row, next)?)),
        ADVANCE_LINE => Ok(RunResult::Ok(advance_line(ops, row, next)?)),
        _ => Ok(RunResult::NewRow(special(header, row, op - FIRST_SPECIAL, next)?)),
    }
}

/// The row of `addr` in the program from `start` on, before which no row was made: the one before the first row above
/// `addr`, none if that is the first made; where no row is above it, the state at the program's end, with any change of
/// file or line made after the last row, and none if no row was made (RULES, "Line table").
#[tactic(auto, using(crate::proofs::Choice::chosen_from, crate::proofs::Choice::none_is))]
pub fn row_for(
    header: LineTableHeader,
    ops: &[u8],
    start: LineState,
    addr: Address,
) -> Option<LineTableRow>
    ensures chosen { IsRowFor (run_of header ops.now start) addr result }
    ensures exact { result ≡ row_for header ops.now start addr }
{
    // A program without a row, of which files may have many, ends here: nothing is divided for it.
    let first = first_maker(ops, start)?;
    let range = range_of(header).cast_unsigned();
    if 0 < range && range < 256 {
        // The quick way, row by row.
        let plan = Plan {
            header,
            range,
            factor: 65536 / range + 1,
            low: header.min_delta.cast_unsigned() % 0x1_0000_0000,
        };
        return quick_rows(ops, first, addr, plan);
    }
    row_by_op(header, ops, None, first, addr)
}

// The same opcode by opcode, at any range, and also where rows were made before `start`: `last` is the last of them.
#[tactic(auto, using(crate::proofs::Runs::opcodes))]
fn row_by_op(
    header: LineTableHeader,
    ops: &[u8],
    last: Option<LineTableRow>,
    start: LineState,
    addr: Address,
) -> Option<LineTableRow>
    ensures { result ≡ row_from header ops.now addr last start }
{
    let mut before = last;
    let mut state = start;
    // A turn takes an opcode with its operand, of one to eleven bytes: it is no element of a slice.
    'opcodes: loop {
        match run_op(header, ops, state) {
            Ok(ran) => match ran {
                RunResult::Ok(after) => {
                    state = after;
                }
                RunResult::NewRow(after) => {
                    if addr.0 < after.row.addr.0 {
                        return before;
                    }
                    before = Some(after.row);
                    state = after;
                }
            },
            Err(_) => return before.and(Some(state.row)),
        }
    }
}

/// The row of `addr` in a whole table of the symbol at `symbol`: the header at 0, and the program behind it. None where
/// no row covers `addr`; the cause where the header doesn't read (RULES, "Line table").
#[tactic(auto, unfolding(crate::specs::Rows::line_row, crate::specs::Rows::table_of))]
pub fn line_row(block: &[u8], symbol: Address, addr: Address) -> Result<Option<LineTableRow>, Cause>
    ensures refused { (cause : Cause) → IsErrOf result cause ↔ IsErrOf (table_of block.now symbol) cause }
    ensures chosen { (run : Run) → table_of block.now symbol ≡ Ok run → IfOk result (IsRowFor run addr) }
    ensures exact { result ≡ line_row block.now symbol addr }
{
    let (header, next) = parse(block, 0)?;
    let row = from_header(header, symbol);
    Ok(row_for(header, block, LineState { row, at: next }, addr))
}

/// How the program of a whole table of the symbol at `symbol` ends, where it is run to its end (RULES, "Line table"): a
/// table reads in full where that is at opcode 0 or with its bytes. The cause where the header doesn't read.
pub fn table_end(block: &[u8], symbol: Address) -> Result<Ending, Cause>
    ensures full { EndsInFull result ↔ LineInFull symbol block.now }
    ensures stopped { (result ≡ Ok Stopped) ↔ LineStops symbol block.now }
    ensures refused { (cause : Cause) → IsErrOf result cause ↔ IsUnread block.now 0 cause }
    ensures exact { result ≡ ending_of block.now symbol }
{
    run_to_end(block, symbol)
}

// `table_end`, held to the definition alone.
#[tactic(auto, unfolding(crate::specs::Endings::ending_of, crate::specs::Rows::table_of))]
fn run_to_end(block: &[u8], symbol: Address) -> Result<Ending, Cause>
    ensures { result ≡ ending_of block.now symbol }
{
    let (header, next) = parse(block, 0)?;
    let row = from_header(header, symbol);
    Ok(program_end(header, block, LineState { row, at: next }))
}

// How a program ends, from a state on.
#[tactic(auto, using(crate::proofs::Endings::endings))]
fn program_end(header: LineTableHeader, ops: &[u8], start: LineState) -> Ending
    ensures { result ≡ (run_of header ops.now start).ended }
{
    let mut state = start;
    // A turn takes an opcode with its operand, of one to eleven bytes: it is no element of a slice.
    'opcodes: loop {
        match run_op(header, ops, state) {
            Ok(RunResult::Ok(after)) => state = after,
            Ok(RunResult::NewRow(after)) => state = after,
            Err(ending) => return ending,
        }
    }
}
