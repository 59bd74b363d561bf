//! The row of an address at a range from 1 to 255, row by row. Between two rows the state is the last row made, since
//! no opcode moves the address without a row: so the row before is at hand, and nothing is copied for it. A special
//! opcode multiplies by a factor where `run_op` divides. What else stands in a program, and its end, is left to
//! `row_by_op`, which goes on from the last row.
ghost use Rattle.std.specs.Prelude.{◌≡◌, ◌<◌, ◌≤◌, length, slice_index, Some, IfSome};
ghost use Rattle.gsym_linetab.specs.declared.LineTableHeader.{LineTableHeader};
ghost use Rattle.gsym_linetab.specs.Quick.{IsPlanFor, LeadsToMaker, MakesNoRow, MakesNextRow, row_before};
ghost use Rattle.gsym_linetab.specs.Rows.{row_for};

use super::{
    ADVANCE_LINE, ADVANCE_PC, END_SEQUENCE, FIRST_SPECIAL, LineState, LineTableHeader,
    LineTableRow, SET_FILE, row_by_op,
};
use crate::opcode::{advance_line, advance_pc, set_file};
use gsym_types::{Address, LineNumber};

// A header, and what special opcodes of its program go by: the range, the factor that divides a byte by it, and min
// modulo 2^32. Nothing prints or compares a plan.
#[derive(Clone, Copy)]
pub(crate) struct Plan {
    pub header: LineTableHeader,
    pub range: u64,
    pub factor: u64,
    pub low: u64,
    ghost planned: { IsPlanFor header range factor low },
}

// The state at the first opcode from `start` on that may make a row, with the files set and the lines changed before
// it. None: the program ends before it makes a row.
#[tactic(auto, using(crate::proofs::Quickly::settings))]
pub(crate) fn first_maker(ops: &[u8], start: LineState) -> Option<LineState>
    ensures { LeadsToMaker ops.now start result }
{
    let mut state = start;
    // A turn takes an opcode with its operand: it is no element of a slice. By `match`: with `ok()` and `?` the answers
    // of the loop, which name the arms, leave goals open.
    'settings: while state.at < ops.len() {
        let next = state.at + 1;
        match ops[state.at] {
            END_SEQUENCE => return None,
            SET_FILE => match set_file(ops, state.row, next) {
                Ok(set) => state = set,
                Err(_) => return None,
            },
            ADVANCE_LINE => match advance_line(ops, state.row, next) {
                Ok(moved) => state = moved,
                Err(_) => return None,
            },
            _ => return Some(state),
        }
    }
    None
}

// The row of the special opcode at the state's place. The quotient is a product and a shift, exact for a byte and the
// plan's factor. Its callers have just tested what the two `requires` say, so no row is tested twice.
fn special_row(ops: &[u8], state: LineState, plan: Plan) -> LineState
    requires there { state.at < length ops.now }
    requires special { 4 ≤ slice_index ops.now state.at }
    ensures { MakesNextRow plan.header ops.now state (Some result) }
{
    let at = state.at;
    let row = state.row;
    let a = u64::from(ops[at] - FIRST_SPECIAL);
    let steps = a * plan.factor / 65536;
    let over = a - steps * plan.range;
    let to = row.addr.0.wrapping_add(steps);
    let sum = u64::from(row.file_line.0) + plan.low + over;
    let on = (sum % 0x1_0000_0000) as u32;
    let row = LineTableRow {
        addr: Address(to),
        file_line: LineNumber(on),
        ..row
    };
    LineState { row, at: at + 1 }
}

// The state after opcode 1, if that stands at its place, where its callers have seen a byte. None: the operand doesn't
// read.
#[tactic(auto, using(crate::proofs::Quickly::file_moves))]
fn file_to(ops: &[u8], state: LineState) -> Option<LineState>
    requires { state.at < length ops.now }
    ensures { IfSome result (MakesNoRow ops.now state) }
{
    if ops[state.at] != SET_FILE {
        return Some(state);
    }
    // By `match`: with `ok()` the compiler keeps a copy of the state, 42 instructions a line table more.
    match set_file(ops, state.row, state.at + 1) {
        Ok(set) => Some(set),
        Err(_) => None,
    }
}

// The state after opcode 3, if that stands at its place, where its callers have seen a byte. None: the operand doesn't
// read. Beside `file_to`: one over both would take what the opcode does as a closure, and `file_to` can't have `ok()`.
#[tactic(auto, using(crate::proofs::Quickly::line_moves))]
fn line_to(ops: &[u8], state: LineState) -> Option<LineState>
    requires { state.at < length ops.now }
    ensures { IfSome result (MakesNoRow ops.now state) }
{
    if ops[state.at] != ADVANCE_LINE {
        return Some(state);
    }
    advance_line(ops, state.row, state.at + 1).ok()
}

// The row of opcode 2, if that stands at the state's place, whatever the header. None: nothing is said.
fn pc_row(ops: &[u8], state: LineState) -> Option<LineState>
    ensures { (header : LineTableHeader) → MakesNextRow header ops.now state result }
{
    if ops.len() <= state.at || ops[state.at] != ADVANCE_PC {
        return None;
    }
    // By `match`: with `ok()` a goal is left open.
    match advance_pc(ops, state.row, state.at + 1) {
        Ok(made) => Some(made),
        Err(_) => None,
    }
}

// The next row, where the file is set already: a special opcode, or a change of the line and opcode 2.
fn near_row(ops: &[u8], state: LineState, plan: Plan) -> Option<LineState>
    ensures { MakesNextRow plan.header ops.now state result }
{
    if ops.len() <= state.at {
        return None;
    }
    if FIRST_SPECIAL <= ops[state.at] {
        return Some(special_row(ops, state, plan));
    }
    let moved = line_to(ops, state)?;
    pc_row(ops, moved)
}

// The next row. Most are of a special opcode alone, so that is asked for first. `near_row` has that test too, and is
// what may follow the file: one over both would go opcode by opcode, which takes longer than by rows (DECISIONS, D15).
fn next_row(ops: &[u8], state: LineState, plan: Plan) -> Option<LineState>
    ensures { MakesNextRow plan.header ops.now state result }
{
    if ops.len() <= state.at {
        return None;
    }
    if FIRST_SPECIAL <= ops[state.at] {
        return Some(special_row(ops, state, plan));
    }
    let set = file_to(ops, state)?;
    near_row(ops, set, plan)
}

// The last row made, where that is the state: none at the place where the program starts.
fn row_before(start: usize, state: LineState) -> Option<LineTableRow>
    ensures { result ≡ row_before start state }
{
    // By `if`: `then_some` copies the row in either case, 0.7 instructions a line table more.
    if start < state.at {
        return Some(state.row);
    }
    None
}

// The row of `addr` in the program from `start` on, as `row_by_op` has it.
#[tactic(auto, using(crate::proofs::Quickly::quickly))]
pub(crate) fn quick_rows(
    ops: &[u8],
    start: LineState,
    addr: Address,
    plan: Plan,
) -> Option<LineTableRow>
    ensures { result ≡ row_for plan.header ops.now start addr }
{
    let mut state = start;
    // A turn takes a row, of one opcode or of several: it is no element of a slice.
    'rows: loop {
        let Some(made) = next_row(ops, state, plan) else {
            let before = row_before(start.at, state);
            return row_by_op(plan.header, ops, before, state, addr);
        };
        if addr.0 < made.row.addr.0 {
            return row_before(start.at, state);
        }
        state = made;
    }
}
