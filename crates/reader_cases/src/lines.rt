//! What the line machine answers to a case.
use crate::said::Said;
use gsym_linetab::{Ending, LineState, LineTableHeader, LineTableRow, RunResult};
use gsym_types::Address;

/// The least and the greatest line change by their bits, the first line and the next place.
pub fn header(block: &[u8]) -> Said {
    match gsym_linetab::parse(block, 0) {
        Ok((header, next)) => Said::Value([
            header.min_delta.cast_unsigned(),
            header.max_delta.cast_unsigned(),
            header.first_line.0 as u64,
            next as u64,
        ]),
        Err(cause) => cause.into(),
    }
}

// A row as address, file and line, with the place after it or 0.
fn numbers(row: LineTableRow, next: usize) -> [u64; 4] {
    [
        row.addr.0,
        row.file_idx.0 as u64,
        row.file_line.0 as u64,
        next as u64,
    ]
}

impl From<RunResult> for Said {
    fn from(ran: RunResult) -> Said {
        match ran {
            RunResult::Ok(state) => Said::NoRow(numbers(state.row, state.at)),
            RunResult::NewRow(state) => Said::NewRow(numbers(state.row, state.at)),
        }
    }
}

impl From<Ending> for Said {
    fn from(ending: Ending) -> Said {
        match ending {
            Ending::EndSequence(next) => Said::End(next),
            Ending::Stopped => Said::Stopped,
            Ending::UsedUp => Said::UsedUp,
        }
    }
}

/// The row of an address.
pub fn row(block: &[u8], symbol: Address, addr: Address) -> Said {
    match gsym_linetab::line_row(block, symbol, addr) {
        Ok(Some(row)) => Said::Value(numbers(row, 0)),
        Ok(None) => Said::Unread,
        Err(cause) => cause.into(),
    }
}

// The opcode after so many others, or what ended the program before it.
fn run(
    header: LineTableHeader,
    block: &[u8],
    start: LineState,
    count: u64,
) -> Result<RunResult, Ending> {
    let mut state = start;
    for _ in 0..count {
        match gsym_linetab::run_op(header, block, state)? {
            RunResult::Ok(next) | RunResult::NewRow(next) => state = next,
        }
    }
    gsym_linetab::run_op(header, block, state)
}

/// What the opcode after so many others does, or why there is none.
pub fn nth_op(block: &[u8], symbol: Address, count: u64) -> Said {
    let (header, next) = match gsym_linetab::parse(block, 0) {
        Ok(read) => read,
        Err(cause) => return cause.into(),
    };
    let row = gsym_linetab::from_header(header, symbol);
    match run(header, block, LineState { row, at: next }, count) {
        Ok(ran) => ran.into(),
        Err(ending) => ending.into(),
    }
}
