//! The report of a crash, from standard input to standard output (RULES, "A report"): four bytes that say how many the
//! file has, the file, and up to 256 addresses of 8 bytes, first the crash address, then the return addresses; all
//! little-endian. Any other input is answered with `?`.
#![tactic(auto)]

use std::io::{self, BufWriter, ErrorKind};
use std::process::ExitCode;

// The exit status where reading or writing fails.
const FAILED: u8 = 2;

fn run(rt: &HostRuntime) -> io::Result<()> {
    let mut out = BufWriter::new(rt.alloc(), io::writer(rt))?;
    gsym_report::run(rt.alloc(), &mut rt.reader(), &mut out)
}

fn main(rt: HostRuntime) -> ExitCode {
    match run(&rt) {
        Ok(()) => ExitCode::SUCCESS,
        Err(error) => {
            // Whoever closed the pipe had enough.
            if error.kind() != ErrorKind::BrokenPipe {
                let _ = eprintln!(rt; "report_main: {error}");
            }
            ExitCode::from(FAILED)
        }
    }
}
