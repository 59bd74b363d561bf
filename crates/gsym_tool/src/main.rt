//! The command-line tool `gsym`: `gsym addr2line -e FILE ..` answers addresses, `gsym report -e FILE ..` reports a
//! crash, `gsym check FILE ..` checks whole files, `gsym info FILE` says what a file has, `gsym dump FILE` prints one
//! as text, `gsym make -o NEW` writes one. Every answer to a word is a text of `gsym_printed`, every report one of
//! `gsym_report`, and a file's text is `gsym_form`'s. Files are read whole.
//!
//!     arguments  the words of the command line, as bytes
//!     options    what they ask for
//!     files      symbol files, read and judged
//!     addr2line  answers to words and to standard input
//!     report     reports of crashes
//!     check      checks of whole files
//!     info       header and tables
//!     dump       files as text
//!     make       files from their text
//!     trouble    why no answer could be given
#![tactic(auto)]

mod addr2line;
mod arguments;
mod check;
mod dump;
mod files;
mod info;
mod make;
mod options;
mod report;
mod trouble;

use options::{Asked, USAGE};
use std::io::{self, Write};
use std::process::ExitCode;
use trouble::Trouble;

const VERSION: &str = "gsym 0.2.0\n";

// Writes a text that was asked for.
fn print(rt: &HostRuntime, text: &str) -> Result<u8, Trouble> {
    match io::writer(rt).write_all(text.as_bytes()) {
        Ok(()) => Ok(0),
        Err(error) => Err(Trouble::Write(error)),
    }
}

// The status of a run.
fn run(rt: &HostRuntime) -> Result<u8, Trouble> {
    let words = arguments::arguments(rt)?;
    match options::asked_by(rt.alloc(), words)? {
        Asked::Help => print(rt, USAGE),
        Asked::Version => print(rt, VERSION),
        Asked::Info(asked) => info::tell(rt, &asked),
        Asked::Check(asked) => check::check_all(rt, &asked),
        Asked::Report(asked) => report::tell(rt, &asked),
        Asked::Dump(asked) => dump::tell(rt, &asked),
        Asked::Make(asked) => make::tell(rt, &asked),
        Asked::Answers(asked) => addr2line::answer_all(rt, &asked),
    }
}

fn main(rt: HostRuntime) -> ExitCode {
    match run(&rt) {
        Ok(status) => ExitCode::from(status),
        Err(trouble) => {
            trouble::tell(&rt, &trouble);
            ExitCode::from(trouble.status())
        }
    }
}
