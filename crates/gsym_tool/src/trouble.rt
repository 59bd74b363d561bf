//! Why no answer could be given, and how that is told.
ghost use Rattle.std.specs.Prelude.{◌≡◌, ◌++◌, OnOk, IfOk, codes};
ghost use Rattle.gsym_printed.specs.declared.view.Form.TheVariants.{Lines, Json};
ghost use Rattle.gsym_printed.specs.Pieces.{shown_text};
ghost use Rattle.gsym_tool.specs.declared.trouble.Trouble.TheVariants.{Memory};

use super::options::USAGE;
use gsym::Refusal;
use gsym_form::Wrong;
use gsym_writer::WriteError;
use std::alloc::{AllocError, Global};
use std::io::{self, Write};

/// The exit status where no answer could be given.
pub const STATUS: u8 = 2;

// That where no file is made of a text.
const NO_FILE: u8 = 1;

#[derive(Drop)]
pub enum Trouble {
    /// What the words of the command line lack.
    Usage(&'static str),
    /// What is wrong, and the word.
    Misused(&'static str, Vec<u8>),
    Memory,
    /// Standard input can't be read.
    Read(io::Error),
    /// What is wrong with what was read of it.
    Input(&'static str),
    /// A word that is no address, where each has to be one.
    NoAddress(Vec<u8>),
    /// Standard output can't be written.
    Write(io::Error),
    /// A file that can't be read.
    Unread(Vec<u8>, io::Error),
    /// A file, and what is wrong with it.
    File(Vec<u8>, &'static str),
    /// A file that is refused.
    Refused(Vec<u8>, Refusal),
    /// A file that can't be written.
    Unwritten(Vec<u8>, io::Error),
    /// A wrong line, counted from 1, in a file's text or on standard input.
    WrongLine(Option<Vec<u8>>, usize, Wrong),
    /// What refuses the file of a text, and the line that it is about, where it is about one.
    Unmade(Option<Vec<u8>>, Option<usize>, WriteError),
}

impl Trouble {
    /// Whether it is to be told: a pipe that was closed is none, since whoever read it had enough.
    pub fn is_news(&self) -> bool {
        match self {
            Trouble::Write(error) => error.kind() != io::ErrorKind::BrokenPipe,
            _ => true,
        }
    }

    /// The exit status of a run that ends so.
    pub fn status(&self) -> u8 {
        match self {
            Trouble::WrongLine(..) | Trouble::Unmade(..) => NO_FILE,
            _ => STATUS,
        }
    }

    /// Whether the usage is to be shown.
    pub fn is_usage(&self) -> bool {
        matches!(self, Trouble::Usage(_) | Trouble::Misused(..))
    }
}

impl From<AllocError> for Trouble {
    ghost from_gives = { λ _ trouble. trouble ≡ Memory };

    fn from(_error: AllocError) -> Trouble {
        Trouble::Memory
    }
}

fn push_str(line: &mut Vec<u8>, text: &str) -> io::Result<()>
    ensures { OnOk result (line.new.items ≡ line.old.items ++ text.now) }
{
    line.extend_from_slice(text.as_bytes())?;
    Ok(())
}

/// Bytes as they may be shown.
#[tactic(auto, using(crate::proofs::Whole::whole))]
pub fn push_shown(alloc: Global, line: &mut Vec<u8>, bytes: &[u8]) -> io::Result<()>
    ensures { OnOk result (line.new.items ≡ line.old.items ++ shown_text Lines bytes.now) }
{
    let len = gsym_printed::shown_text(bytes, &mut []);
    let mut room = vec![in alloc; 0u8; len]?;
    let _ = gsym_printed::shown_text(bytes, &mut room);
    line.extend_from_slice(&room)?;
    Ok(())
}

/// Bytes as they stand in a string of JSON.
#[tactic(auto, using(crate::proofs::Whole::whole))]
pub fn push_json_text(alloc: Global, line: &mut Vec<u8>, bytes: &[u8]) -> io::Result<()>
    ensures { OnOk result (line.new.items ≡ line.old.items ++ shown_text Json bytes.now) }
{
    let len = gsym_printed::json_text(bytes, &mut []);
    let mut text = vec![in alloc; 0u8; len]?;
    let _ = gsym_printed::json_text(bytes, &mut text);
    line.extend_from_slice(&text)?;
    Ok(())
}

fn push_file(alloc: Global, line: &mut Vec<u8>, name: &[u8]) -> io::Result<()>
    ensures { OnOk result (line.new.items ≡ (line.old.items ++ shown_text Lines name.now) ++ codes ": ") }
{
    push_shown(alloc, line, name)?;
    push_str(line, ": ")
}

/// Why there is no answer, without the word or the file that it is about.
pub fn push_reason(line: &mut Vec<u8>, trouble: &Trouble) -> io::Result<()> {
    match trouble {
        Trouble::Usage(why) => push_str(line, why),
        Trouble::Misused(why, _) => push_str(line, why),
        Trouble::Memory => push_str(line, "out of memory"),
        Trouble::Read(error) => write!(line, "{error}"),
        Trouble::Input(why) => push_str(line, why),
        Trouble::NoAddress(_) => push_str(line, "no address"),
        Trouble::Write(error) => write!(line, "{error}"),
        Trouble::Unread(_, error) => write!(line, "{error}"),
        Trouble::File(_, why) => push_str(line, why),
        Trouble::Refused(_, refusal) => {
            write!(line, "refused: {}, ", refusal.number())?;
            push_str(line, gsym_printed::refusal_name(*refusal))
        }
        Trouble::Unwritten(_, error) => write!(line, "{error}"),
        Trouble::WrongLine(_, _, wrong) => write!(line, "{wrong}"),
        Trouble::Unmade(_, _, error) => write!(line, "refused: {}, {error}", error.number()),
    }
}

// The text that a line is of, and the line.
fn push_line(
    alloc: Global,
    line: &mut Vec<u8>,
    name: &Option<Vec<u8>>,
    number: Option<usize>,
) -> io::Result<()> {
    match name {
        Some(name) => push_file(alloc, line, name)?,
        None => push_str(line, "standard input: ")?,
    }
    match number {
        Some(number) => write!(line, "line {number}: "),
        None => Ok(()),
    }
}

// What it is about, before the reason.
fn push_about(alloc: Global, line: &mut Vec<u8>, trouble: &Trouble) -> io::Result<()> {
    match trouble {
        Trouble::Read(_) | Trouble::Input(_) => push_str(line, "standard input: "),
        Trouble::Write(_) => push_str(line, "standard output: "),
        Trouble::Unread(name, _) => push_file(alloc, line, name),
        Trouble::File(name, _) => push_file(alloc, line, name),
        Trouble::Refused(name, _) => push_file(alloc, line, name),
        Trouble::Unwritten(name, _) => push_file(alloc, line, name),
        Trouble::WrongLine(name, number, _) => push_line(alloc, line, name, Some(*number)),
        Trouble::Unmade(name, number, _) => push_line(alloc, line, name, *number),
        _ => Ok(()),
    }
}

// And the word that it is about, behind it.
fn push_word(alloc: Global, line: &mut Vec<u8>, trouble: &Trouble) -> io::Result<()> {
    if let Trouble::Misused(_, word) = trouble {
        push_str(line, " '")?;
        push_shown(alloc, line, word)?;
        push_str(line, "'")?;
    }
    Ok(())
}

/// A line that tells it.
pub fn told(alloc: Global, trouble: &Trouble) -> io::Result<Vec<u8>> {
    if let Trouble::NoAddress(word) = trouble {
        return told_word(alloc, word);
    }
    let mut line = Vec::new(alloc);
    push_str(&mut line, "gsym: ")?;
    push_about(alloc, &mut line, trouble)?;
    push_reason(&mut line, trouble)?;
    push_word(alloc, &mut line, trouble)?;
    push_str(&mut line, "\n")?;
    Ok(line)
}

/// Tells it on standard error, where it can be told and is news.
pub fn tell(rt: &HostRuntime, trouble: &Trouble) {
    if !trouble.is_news() {
        return;
    }
    if let Ok(line) = told(rt.alloc(), trouble) {
        let _ = rt.stderr().write_all(&line);
    }
    if trouble.is_usage() {
        let _ = eprint!(rt; "{USAGE}");
    }
}

/// A line that tells of a word that is no address.
pub fn told_word(alloc: Global, word: &[u8]) -> io::Result<Vec<u8>>
    ensures { IfOk result (λ line.
        line.items ≡ (codes "gsym: '" ++ shown_text Lines word.now) ++ codes "' is no address\n") }
{
    let mut line = Vec::new(alloc);
    push_str(&mut line, "gsym: '")?;
    push_shown(alloc, &mut line, word)?;
    push_str(&mut line, "' is no address\n")?;
    Ok(line)
}
