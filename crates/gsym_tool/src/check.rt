//! Checks of whole files (RULES, "Checking a file"), a line for each.
ghost use Rattle.std.specs.Prelude.{◌≡◌, ◌↔◌, IsTrue, IsOk, IfOk, IfErr};
ghost use Rattle.gsym_verify.specs.Check.{check_of};
ghost use Rattle.gsym_tool.specs.Troubles.{IsOfOutput};

use super::files::{MOST, any_bytes};
use super::options::Check;
use super::trouble::{self, Trouble, push_json_text, push_reason, push_shown};
use gsym_parser::GsymContext;
use gsym_verify::{Finding, Watch, check, check_watched};
use std::alloc::Global;
use std::io::{self, IsTerminal, Write};
use std::time::Instant;

// The exit status where a file doesn't pass.
const FAULTY: u8 = 1;

// A file's turn.
#[derive(Clone, Copy)]
struct Turn<'a> {
    rt: &'a HostRuntime,
    // Which file, counted from 1, of how many.
    file: usize,
    files: usize,
    // When it came, where a terminal is to hear of it.
    start: Option<Instant>,
}

// How far a check is, for a terminal: once a second from the first on, since the file's turn came.
#[derive(Drop)]
struct Progress<'a> {
    rt: &'a HostRuntime,
    file: usize,
    files: usize,
    // How many entries the file has.
    entries: u32,
    start: Instant,
    // The seconds after which it was told last.
    told: u64,
}

impl Watch for Progress<'_> {
    fn entry(&mut self, index: u32) {
        let Ok(elapsed) = self.start.elapsed(self.rt) else {
            return;
        };
        if elapsed.as_secs() > self.told {
            self.told = elapsed.as_secs();
            let _ = eprint!(self.rt;
                "\rgsym: file {} of {}, entry {index} of {}",
                self.file, self.files, self.entries
            );
        }
    }
}

impl Progress<'_> {
    // Takes away what was told.
    fn end(&self) {
        if self.told > 0 {
            let _ = eprint!(self.rt; "\r\x1b[K");
        }
    }
}

// A check that tells a terminal how far it is.
fn check_aloud(progress: &mut Progress<'_>, file: &[u8]) -> Result<(), Finding>
    ensures { result ≡ check_of file.now }
{
    let checked = check_watched(file, progress);
    progress.end();
    checked
}

// When a file's turn came, where a terminal is to hear of it and there is a clock.
fn clock(rt: &HostRuntime) -> Option<Instant> {
    if rt.stderr().is_terminal() {
        Instant::now(rt).ok()
    } else {
        None
    }
}

// A check of the bytes of a file, of which a terminal hears that a clock is there for.
fn check_bytes(turn: Turn<'_>, bytes: &[u8]) -> Result<(), Finding>
    ensures { result ≡ check_of bytes.now }
{
    let Some(start) = turn.start else {
        return check(bytes);
    };
    let Ok(opened) = GsymContext::parse_header(bytes) else {
        return check(bytes);
    };
    let mut progress = Progress {
        rt: turn.rt,
        file: turn.file,
        files: turn.files,
        entries: opened.tables.count,
        start,
        told: 0,
    };
    check_aloud(&mut progress, bytes)
}

// What is found, in words, without the entry.
fn push_words(line: &mut Vec<u8>, finding: Finding) -> io::Result<()> {
    match finding {
        Finding::Entry { fault, .. } => write!(line, "{fault}"),
        of_tables => write!(line, "{of_tables}"),
    }
}

fn push_finding(line: &mut Vec<u8>, finding: Finding) -> io::Result<()> {
    if let Finding::Entry { index, .. } = finding {
        write!(line, "entry {index}: ")?;
    }
    write!(line, "?{} ", finding.number())?;
    push_words(line, finding)
}

fn push_line(
    alloc: Global,
    line: &mut Vec<u8>,
    name: &[u8],
    found: Result<(), Finding>,
) -> io::Result<()> {
    push_shown(alloc, line, name)?;
    write!(line, ": ")?;
    match found {
        Ok(()) => write!(line, "passed")?,
        Err(finding) => push_finding(line, finding)?,
    }
    writeln!(line, "")
}

// What is found, behind the name in an object.
fn push_json_finding(line: &mut Vec<u8>, finding: Finding) -> io::Result<()> {
    write!(line, "{},", finding.number())?;
    if let Finding::Entry { index, .. } = finding {
        write!(line, "\"entry\":{index},")?;
    }
    write!(line, "\"finding\":\"")?;
    push_words(line, finding)?;
    write!(line, "\"")
}

fn push_json(
    alloc: Global,
    line: &mut Vec<u8>,
    name: &[u8],
    found: Result<(), Finding>,
) -> io::Result<()> {
    write!(line, "{{\"file\":\"")?;
    push_json_text(alloc, line, name)?;
    write!(line, "\",\"number\":")?;
    match found {
        Ok(()) => write!(line, "0")?,
        Err(finding) => push_json_finding(line, finding)?,
    }
    writeln!(line, "}}")
}

fn line_of(
    alloc: Global,
    json: bool,
    name: &[u8],
    found: Result<(), Finding>,
) -> io::Result<Vec<u8>> {
    let mut line = Vec::new(alloc);
    if json {
        push_json(alloc, &mut line, name, found)?;
    } else {
        push_line(alloc, &mut line, name, found)?;
    }
    Ok(line)
}

// Prints the line of a file, and whether it passes.
fn print<W: Write>(
    alloc: Global,
    out: &mut W,
    json: bool,
    name: &[u8],
    found: Result<(), Finding>,
) -> Result<bool, Trouble>
    ensures status { IfOk result (λ passed. IsTrue passed ↔ IsOk found) }
    ensures output { IfErr result IsOfOutput }
{
    let Ok(line) = line_of(alloc, json, name, found) else {
        return Err(Trouble::Memory);
    };
    match out.write_all(&line) {
        Ok(()) => Ok(found.is_ok()),
        Err(error) => Err(Trouble::Write(error)),
    }
}

// A file that can't be read, as an object.
fn push_json_unread(
    alloc: Global,
    line: &mut Vec<u8>,
    name: &[u8],
    unread: &Trouble,
) -> io::Result<()> {
    write!(line, "{{\"file\":\"")?;
    push_json_text(alloc, line, name)?;
    write!(line, "\",\"error\":\"")?;
    let mut reason = Vec::new(alloc);
    push_reason(&mut reason, unread)?;
    push_json_text(alloc, line, &reason)?;
    writeln!(line, "\"}}")
}

// Tells of a file that can't be read, on standard error and, in JSON, in its line.
fn tell_unread(rt: &HostRuntime, json: bool, name: &[u8], unread: &Trouble) -> Result<(), Trouble>
    ensures { IfErr result IsOfOutput }
{
    let alloc = rt.alloc();
    trouble::tell(rt, unread);
    if !json {
        return Ok(());
    }
    let mut line = Vec::new(alloc);
    if push_json_unread(alloc, &mut line, name, unread).is_err() {
        return Err(Trouble::Memory);
    }
    match io::writer(rt).write_all(&line) {
        Ok(()) => Ok(()),
        Err(error) => Err(Trouble::Write(error)),
    }
}

// A file's turn: its line, and the status that it asks for.
fn check_file(turn: Turn<'_>, json: bool, name: &[u8]) -> Result<u8, Trouble>
    ensures { IfErr result IsOfOutput }
{
    let alloc = turn.rt.alloc();
    match any_bytes(turn.rt, name, MOST) {
        Ok(bytes) => {
            let found = check_bytes(turn, &bytes);
            let passed = print(alloc, &mut io::writer(turn.rt), json, name, found)?;
            Ok(if passed { 0 } else { FAULTY })
        }
        Err(unread) => {
            tell_unread(turn.rt, json, name, &unread)?;
            Ok(trouble::STATUS)
        }
    }
}

/// Checks all files, each of which has a line but, in text, those that can't be read; the status of the run: 0 where
/// all pass, 1 where one doesn't, 2 where one can't be read.
pub fn check_all(rt: &HostRuntime, asked: &Check) -> Result<u8, Trouble>
    ensures { IfErr result IsOfOutput }
{
    let mut status = 0;
    for (index, name) in asked.files.iter().enumerate() {
        let turn = Turn {
            rt,
            file: index + 1,
            files: asked.files.len(),
            start: clock(rt),
        };
        status = status.max(check_file(turn, asked.json, name)?);
    }
    Ok(status)
}
