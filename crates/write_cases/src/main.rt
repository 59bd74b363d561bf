//! Replays what is on standard input: contents, each written to so much room, texts, of each of which a file is made,
//! and files, of each of which the text is printed. Prints each line whose outcome differs, and then how many cases
//! there were and how many differ. The room is filled first: what is behind a file must stay, and all of it where
//! nothing is written. tests/write/README.md says what the lines are and where the expected outcomes come from.
#![tactic(auto)]

use anyhow::{Context, Result, bail};
use gsym_form::{Form, FormEntry, FormItem, Unmade, Unread, dump};
use gsym_parser::{GsymContext, is_width};
use gsym_writer::{Address, FileInfo, StrOffset, WriteError};
use std::alloc::Global;
use std::io::{self, BufRead, BufReader};

// What the room is filled with.
const FILL: u8 = 0xa5;

// The words of a line that are still to come.
#[derive(Clone, Copy)]
struct Words<'a> {
    rest: &'a str,
}

impl<'a> Words<'a> {
    fn next(&mut self) -> Option<&'a str> {
        if self.rest.is_empty() {
            return None;
        }
        let (word, rest) = self.rest.split_once(' ').unwrap_or((self.rest, ""));
        self.rest = rest;
        Some(word)
    }

    // The next word, which has to be there.
    fn word(&mut self) -> Result<&'a str> {
        self.next().context("a word is missing")
    }

    fn number(&mut self) -> Result<u64> {
        Ok(self.word()?.parse::<u64>()?)
    }

    fn short_number(&mut self) -> Result<u32> {
        Ok(self.word()?.parse::<u32>()?)
    }

    // Bytes in hexadecimal, which have to be the last word.
    fn last_bytes(&mut self, alloc: Global) -> Result<Vec<u8>> {
        let bytes = self.bytes(alloc)?;
        if self.next().is_some() {
            bail!("a word too many");
        }
        Ok(bytes)
    }

    // Bytes in hexadecimal; `-` stands for none.
    fn bytes(&mut self, alloc: Global) -> Result<Vec<u8>> {
        let word = self.word()?;
        if word == "-" {
            return Ok(Vec::new(alloc));
        }
        Ok(hex::decode(alloc, word)?)
    }
}

// What a line gives to be written, and the room for it.
#[derive(Drop)]
struct Case {
    room: usize,
    form: Form,
}

fn nothing(alloc: Global) -> Form {
    Form {
        entries: Vec::new(alloc),
        items: Vec::new(alloc),
        bytes: Vec::new(alloc),
        files: Vec::new(alloc),
        file_lines: Vec::new(alloc),
        strings: Vec::new(alloc),
    }
}

fn push<T: Drop>(list: &mut Vec<T>, thing: T) -> Result<()> {
    list.push(thing)?;
    Ok(())
}

fn parse_entry(words: &mut Words<'_>, form: &mut Form) -> Result<()> {
    let first = form.items.len();
    let entry = FormEntry {
        addr: Address(words.number()?),
        size: words.short_number()?,
        name: StrOffset(words.short_number()?),
        first,
        end: first,
        line: 0,
    };
    push(&mut form.entries, entry)
}

fn parse_item(alloc: Global, words: &mut Words<'_>, form: &mut Form) -> Result<()> {
    let kind = words.short_number()?;
    let bytes = words.bytes(alloc)?;
    let first = form.bytes.len();
    form.bytes.extend_from_slice(&bytes)?;
    let end = form.bytes.len();
    let item = FormItem {
        kind,
        line: 0,
        first,
        end,
    };
    push(&mut form.items, item)?;
    if let Some(entry) = form.entries.last_mut() {
        entry.end = form.items.len();
    }
    Ok(())
}

fn parse_file(words: &mut Words<'_>, form: &mut Form) -> Result<()> {
    let file = FileInfo {
        directory: StrOffset(words.short_number()?),
        filename: StrOffset(words.short_number()?),
    };
    push(&mut form.files, file)
}

// What is given, behind the name of the case.
fn parse(alloc: Global, line: &str) -> Result<Case> {
    let mut words = Words { rest: line };
    let mut form = nothing(alloc);
    let mut room = 0;
    for _ in 0..u64::MAX {
        match words.next() {
            Some("room") => room = words.number()? as usize,
            Some("strings") => form.strings = words.bytes(alloc)?,
            Some("file") => parse_file(&mut words, &mut form)?,
            Some("entry") => parse_entry(&mut words, &mut form)?,
            Some("item") => parse_item(alloc, &mut words, &mut form)?,
            Some(_) => bail!("a word that is none"),
            None => break,
        }
    }
    Ok(Case { room, form })
}

// What refuses a file, as the lines have it.
fn refusal_text(alloc: Global, error: WriteError) -> Result<String> {
    let number = error.number();
    let text = match error {
        WriteError::NotRising { entry }
        | WriteError::SumTooLarge { entry }
        | WriteError::EndItem { entry } => format!(in alloc; "{number} {entry}")?,
        WriteError::UnreadName { entry } => format!(in alloc; "{number} name {entry}")?,
        WriteError::UnreadFile { file } => format!(in alloc; "{number} file {file}")?,
        WriteError::TooLarge => format!(in alloc; "{number}")?,
        WriteError::TooLittleRoom { needed } => format!(in alloc; "{number} {needed}")?,
    };
    Ok(text)
}

// Whether all of some bytes are as the room was filled.
fn is_untouched(bytes: &[u8]) -> bool {
    bytes.iter().all(|byte| *byte == FILL)
}

// What came of writing a case, as the lines have it.
fn outcome(alloc: Global, case: &Case) -> Result<String> {
    let mut out = vec![in alloc; FILL; case.room]?;
    match case.form.write(alloc, &mut out) {
        Ok(len) => {
            let (file, behind) = out.split_at(len.min(out.len()));
            if !is_untouched(behind) {
                bail!("bytes behind the file are others");
            }
            let digits = hex::encode(alloc, file)?;
            Ok(format!(in alloc; "0 {digits}")?)
        }
        Err(Unmade::Refused(error)) => {
            if !is_untouched(&out) {
                bail!("bytes were written");
            }
            refusal_text(alloc, error)
        }
        Err(Unmade::Memory) => bail!("no memory"),
    }
}

// What came of the form of a text.
fn outcome_of_form(alloc: Global, form: &Form) -> Result<String> {
    match form.file(alloc) {
        Ok(file) => {
            let digits = hex::encode(alloc, &file)?;
            Ok(format!(in alloc; "0 {digits}")?)
        }
        Err(Unmade::Refused(error)) => {
            let line = form.line_of(error).unwrap_or(0);
            Ok(format!(in alloc; "{} line {line}", error.number())?)
        }
        Err(Unmade::Memory) => bail!("no memory"),
    }
}

// What came of a text: the file, the line that is wrong, or what refuses it and the line.
fn outcome_of_text(alloc: Global, text: &[u8]) -> Result<String> {
    match gsym_form::parse(alloc, text) {
        Ok(form) => outcome_of_form(alloc, &form),
        Err(Unread::Line(line, _)) => Ok(format!(in alloc; "line {line}")?),
        Err(Unread::Memory) => bail!("no memory"),
    }
}

// What came of a file: whether some entry doesn't read, and the text; or that it is refused.
fn outcome_of_file(alloc: Global, file: &[u8]) -> Result<String> {
    let Ok(context) = GsymContext::parse_header(file) else {
        return Ok(format!(in alloc; "refused")?);
    };
    if !is_width(context.tables.offset_size) {
        return Ok(format!(in alloc; "refused")?);
    }
    let mut text = Vec::new(alloc);
    let reads = dump(alloc, &context, &mut text)?;
    let digits = hex::encode(alloc, &text)?;
    let status = if reads { 0 } else { 1 };
    Ok(format!(in alloc; "{status} {digits}")?)
}

// What came of what is given, behind the name of the case.
fn outcome_of(alloc: Global, given: &str) -> Result<String> {
    let mut words = Words { rest: given };
    match words.next() {
        Some("text") => outcome_of_text(alloc, &words.last_bytes(alloc)?),
        Some("dump") => outcome_of_file(alloc, &words.last_bytes(alloc)?),
        _ => outcome(alloc, &parse(alloc, given)?),
    }
}

// What came of a line, and what is expected of it.
fn run(alloc: Global, line: &str) -> Result<(String, bool)> {
    let (given, expected) = line.split_once(" = ").context("no outcome")?;
    let (_name, given) = given.split_once(' ').context("a single word")?;
    let came = outcome_of(alloc, given)?;
    let agrees = came.as_str() == expected;
    Ok((came, agrees))
}

// Whether a line comes to what is expected; else it is told.
fn replay(rt: &impl Print, alloc: Global, line: &str) -> io::Result<bool> {
    match run(alloc, line) {
        Ok((_, true)) => Ok(true),
        Ok((came, false)) => {
            println!(rt; "{line}\n  came to {came}")?;
            Ok(false)
        }
        Err(error) => {
            println!(rt; "{line}\n  {error}")?;
            Ok(false)
        }
    }
}

fn main(rt: HostRuntime) -> io::Result<()> {
    let alloc = rt.alloc();
    let mut cases = 0u64;
    let mut differ = 0u64;
    for line in BufReader::new(alloc, rt.reader())?.lines(alloc) {
        let line = line?;
        if line.starts_with('#') {
            continue;
        }
        cases = cases.saturating_add(1);
        if !replay(&rt, alloc, &line)? {
            differ = differ.saturating_add(1);
        }
    }
    println!(rt; "{cases} cases, {differ} differ")
}
