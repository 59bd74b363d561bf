//! What a text says, line by line (RULES, "A file as text").
ghost use Rattle.std.specs.Prelude.{◌≡◌, ◌+◌, ◌++◌, ◌∷◌, [], true, option_map, IfOk, OnOk, IfErr};
ghost use Rattle.std.specs.List.{slice_split};
ghost use Rattle.gsym_form.specs.Kept.{reading_said, texts_said, IsWhole, TellsLines, unread_of};
ghost use Rattle.gsym_form.specs.Lines.{IsCounted};
ghost use Rattle.gsym_form.specs.Parsed.{ReadAs};
ghost use Rattle.gsym_form.specs.Said.{text_said, is_string_at, with_text, put_text, offset_of, string, early};
ghost use Rattle.gsym_form.specs.Said.{read_string, read_bytes, read_file, read_entry, read_item, read_start, read_end};
ghost use Rattle.gsym_form.specs.Said.{is_indented, ends_in, read_words, line_said, lines_said, is_newline};
ghost use Rattle.gsym_form.specs.Said.{with_table, line_count};
ghost use Rattle.gsym_form.specs.Taken.{TellsOf};
ghost use Rattle.gsym_form.specs.Words.{word, is_word, behind_word};

use super::form::{Form, FormEntry, FormItem};
use super::line::{Line, add};
use super::wrong::{Problem, Unread, Wrong};
use gsym_writer::{Address, FileInfo, StrOffset};
use std::alloc::{AllocError, Global};
use std::collections::BTreeMap;

// How far a text was read: to no line that says anything, to the form's own line, or to the last.
#[derive(Clone, Copy)]
enum Stage {
    Before,
    Within,
    Behind,
}

// What was read so far.
#[derive(Drop)]
struct Reading {
    form: Form,
    // The offset of each text that was put into the table with a zero byte, the first of each.
    offsets: BTreeMap<Vec<u8>, u32>,
    stage: Stage,
    // Whether the string table has begun.
    has_strings: bool,
    // Whether it is at its end, so that no line of strings may come.
    has_more: bool,
}

fn copy(alloc: Global, bytes: &[u8]) -> Result<Vec<u8>, AllocError>
    ensures { IfOk result (λ list. list.items ≡ bytes.now) }
{
    let mut list = Vec::new(alloc);
    list.extend_from_slice(bytes)?;
    Ok(list)
}

// Keeps the place of a text, unless one is known.
fn keep(
    alloc: Global,
    offsets: &mut BTreeMap<Vec<u8>, u32>,
    text: &[u8],
    offset: u32,
) -> Result<(), AllocError>
    ensures { OnOk result (texts_said offsets.new ≡ with_text (texts_said offsets.old) text.now offset) }
{
    if offsets.get(text).is_some() {
        return Ok(());
    }
    let _ = offsets.insert(copy(alloc, text)?, offset)?;
    Ok(())
}

// Whether a text is the string at an offset.
fn is_string_at(strings: &[u8], offset: u32, text: &[u8]) -> bool
    ensures { result ≡ is_string_at strings.now offset text.now }
{
    let Some(from) = strings.get(offset as usize..) else {
        return false;
    };
    match from.strip_prefix(text) {
        Some(rest) => rest.first() == Some(&0),
        None => false,
    }
}

// Whether nothing stands behind the last such byte.
fn ends_in(bytes: &[u8], byte: u8) -> bool
    ensures { result ≡ ends_in byte bytes.now }
{
    match bytes.last() {
        Some(last) => *last == byte,
        None => true,
    }
}

// Whether a word is this one.
fn is_word(word: Option<&[u8]>, wanted: &[u8]) -> bool
    ensures { result ≡ is_word wanted.now (option_map (λ w. (w.now, [])) word.entry) }
{
    word == Some(wanted)
}

// Takes the next word, and answers whether it is this one.
fn takes(line: &mut Line<'_>, wanted: &[u8]) -> bool
    ensures is { result ≡ is_word wanted.now (word line.old.rest.now) }
    ensures rest { result ≡ true → line.new.rest.now ≡ behind_word (word line.old.rest.now) }
{
    is_word(line.word(), wanted)
}

// Whether a blank or a tab stands before all words.
fn is_indented(bytes: &[u8]) -> bool
    ensures { result ≡ is_indented bytes.now }
{
    for byte in bytes {
        if *byte != b'\r' {
            return *byte == b' ' || *byte == b'\t';
        }
    }
    false
}

// What ends the reading of a line, with the line's number.
fn unread(number: usize, problem: Problem) -> Unread
    ensures { result ≡ unread_of number problem }
{
    match problem {
        Problem::Memory => Unread::Memory,
        Problem::Wrong(wrong) => Unread::Line(number, wrong),
    }
}

impl Reading {
    // The offset of a text that is put behind all strings, with a zero byte.
    #[tactic(auto, unfolding(crate::specs::Said::put_text))]
    fn put(&mut self, alloc: Global, text: &[u8]) -> Result<u32, Problem>
        requires { IsWhole self.old }
        ensures says { TellsOf (λ n. (n, reading_said self.new)) result (put_text (reading_said self.old) text.now) }
        ensures whole { IsWhole self.new }
    {
        let Ok(offset) = u32::try_from(self.form.strings.len()) else {
            return Err(Problem::Wrong(Wrong::FullStrings));
        };
        self.form.strings.extend_from_slice(text)?;
        add(&mut self.form.strings, 0)?;
        keep(alloc, &mut self.offsets, text, offset)?;
        Ok(offset)
    }

    // The offset of a text: where it stands by itself, or at the end.
    #[tactic(auto, using(crate::proofs::Strings::offsets))]
    fn offset_of(&mut self, alloc: Global, text: &[u8]) -> Result<u32, Problem>
        requires { IsWhole self.old }
        ensures says { TellsOf (λ n. (n, reading_said self.new)) result (offset_of (reading_said self.old) text.now) }
        ensures whole { IsWhole self.new }
    {
        if let Some(offset) = self.offsets.get(text) {
            return Ok(*offset);
        }
        if !ends_in(&self.form.strings, 0) {
            return Err(Problem::Wrong(Wrong::FullStrings));
        }
        self.put(alloc, text)
    }

    // An offset, a text, or an offset and the text at it.
    #[tactic(auto, unfolding(crate::specs::Said::string, crate::specs::Said::text_string, crate::specs::Said::offset_string, crate::specs::Said::same_text))]
    fn string(&mut self, alloc: Global, line: &mut Line<'_>) -> Result<StrOffset, Problem>
        requires { IsWhole self.old }
        ensures says { TellsOf (λ o. ((o, reading_said self.new), line.new.rest.now)) result
            (string (reading_said self.old) line.old.rest.now) }
        ensures whole { IsWhole self.new }
    {
        if line.is_text() {
            let text = line.text(alloc)?;
            return Ok(StrOffset(self.offset_of(alloc, &text)?));
        }
        let offset = line.short_number()?;
        if line.is_text() {
            let text = line.text(alloc)?;
            if !is_string_at(&self.form.strings, offset, &text) {
                return Err(Problem::Wrong(Wrong::OtherString));
            }
        }
        Ok(StrOffset(offset))
    }

    // That no file and no entry was read yet.
    #[tactic(auto, unfolding(crate::specs::Said::early))]
    fn may_have_strings(&mut self) -> Result<(), Problem>
        requires { IsWhole self.old }
        ensures says { TellsOf (λ _. reading_said self.new) result (early (reading_said self.old)) }
        ensures whole { IsWhole self.new }
    {
        if self.has_more {
            return Err(Problem::Wrong(Wrong::LateStrings));
        }
        self.has_strings = true;
        Ok(())
    }

    // `string TEXT`
    #[tactic(auto, unfolding(crate::specs::Said::read_string))]
    fn read_string(&mut self, alloc: Global, line: &mut Line<'_>) -> Result<(), Problem>
        requires { IsWhole self.old }
        ensures says { TellsOf (λ _. reading_said self.new) result
            (read_string (reading_said self.old) line.old.rest.now) }
        ensures whole { IsWhole self.new }
    {
        self.may_have_strings()?;
        let text = line.text(alloc)?;
        line.over()?;
        self.put(alloc, &text)?;
        Ok(())
    }

    // `bytes TEXT`
    #[tactic(auto, unfolding(crate::specs::Said::read_bytes))]
    fn read_bytes(&mut self, alloc: Global, line: &mut Line<'_>) -> Result<(), Problem>
        requires { IsWhole self.old }
        ensures says { TellsOf (λ _. reading_said self.new) result
            (read_bytes (reading_said self.old) line.old.rest.now) }
        ensures whole { IsWhole self.new }
    {
        self.may_have_strings()?;
        let text = line.text(alloc)?;
        line.over()?;
        self.form.strings.extend_from_slice(&text)?;
        Ok(())
    }

    // Where no line of strings stands, the table begins with a zero byte.
    #[tactic(auto, unfolding(crate::specs::Said::with_table))]
    fn end_strings(&mut self, alloc: Global) -> Result<(), Problem>
        requires { IsWhole self.old }
        ensures says { TellsOf (λ _. reading_said self.new) result (with_table (reading_said self.old)) }
        ensures whole { IsWhole self.new }
    {
        if self.has_strings {
            self.has_more = true;
            return Ok(());
        }
        self.put(alloc, b"".as_slice())?;
        self.has_strings = true;
        self.has_more = true;
        Ok(())
    }

    // `file STRING STRING`
    #[tactic(auto, unfolding(crate::specs::Said::read_file))]
    fn read_file(
        &mut self,
        alloc: Global,
        number: usize,
        line: &mut Line<'_>,
    ) -> Result<(), Problem>
        requires { IsWhole self.old }
        ensures says { TellsOf (λ _. reading_said self.new) result
            (read_file number (reading_said self.old) line.old.rest.now) }
        ensures whole { IsWhole self.new }
    {
        self.end_strings(alloc)?;
        let directory = self.string(alloc, line)?;
        let filename = self.string(alloc, line)?;
        line.over()?;
        add(
            &mut self.form.files,
            FileInfo {
                directory,
                filename,
            },
        )?;
        add(&mut self.form.file_lines, number)?;
        Ok(())
    }

    // `entry ADDRESS SIZE STRING`
    #[tactic(auto, using(crate::proofs::Places::entry_more), unfolding(crate::specs::Said::read_entry, crate::specs::Said::is_unread))]
    fn read_entry(
        &mut self,
        alloc: Global,
        number: usize,
        line: &mut Line<'_>,
    ) -> Result<(), Problem>
        requires { IsWhole self.old }
        ensures says { TellsOf (λ _. reading_said self.new) result
            (read_entry number (reading_said self.old) line.old.rest.now) }
        ensures whole { OnOk result (IsWhole self.new) }
    {
        self.end_strings(alloc)?;
        let addr = Address(line.number(u64::MAX)?);
        let mut ahead = *line;
        if takes(&mut ahead, b"?5".as_slice()) {
            return Err(Problem::Wrong(Wrong::UnreadEntry));
        }
        let size = line.short_number()?;
        let name = self.string(alloc, line)?;
        line.over()?;
        let first = self.form.items.len();
        let entry = FormEntry {
            addr,
            size,
            name,
            first,
            end: first,
            line: number,
        };
        add(&mut self.form.entries, entry)?;
        Ok(())
    }

    // `TYPE HEX`
    #[tactic(auto, unfolding(crate::specs::Said::read_item))]
    fn read_item(
        &mut self,
        alloc: Global,
        number: usize,
        line: &mut Line<'_>,
    ) -> Result<(), Problem>
        requires { IsWhole self.old }
        ensures says { TellsOf (λ _. reading_said self.new) result
            (read_item number (reading_said self.old) line.old.rest.now) }
        ensures whole { OnOk result (IsWhole self.new) }
    {
        let Some(entry) = self.form.entries.last_mut() else {
            return Err(Problem::Wrong(Wrong::NoEntry));
        };
        let kind = line.short_number()?;
        let bytes = line.hex(alloc)?;
        line.over()?;
        let first = self.form.bytes.len();
        self.form.bytes.extend_from_slice(&bytes)?;
        let end = self.form.bytes.len();
        let item = FormItem {
            kind,
            line: number,
            first,
            end,
        };
        add(&mut self.form.items, item)?;
        entry.end = self.form.items.len();
        Ok(())
    }

    // `end`
    #[tactic(auto, unfolding(crate::specs::Said::read_end))]
    fn read_end(&mut self, line: &mut Line<'_>) -> Result<(), Problem>
        requires { IsWhole self.old }
        ensures says { TellsOf (λ _. reading_said self.new) result
            (read_end (reading_said self.old) line.old.rest.now) }
        ensures whole { IsWhole self.new }
    {
        line.over()?;
        self.stage = Stage::Behind;
        Ok(())
    }

    // `gsym 1`
    #[tactic(auto, unfolding(crate::specs::Said::read_start))]
    fn read_start(&mut self, line: &mut Line<'_>) -> Result<(), Problem>
        requires { IsWhole self.old }
        ensures says { TellsOf (λ _. reading_said self.new) result
            (read_start (reading_said self.old) line.old.rest.now) }
        ensures whole { IsWhole self.new }
    {
        if !takes(line, b"gsym".as_slice()) || !takes(line, b"1".as_slice()) {
            return Err(Problem::Wrong(Wrong::Start));
        }
        line.over()?;
        self.stage = Stage::Within;
        Ok(())
    }

    // A line that says something, which may be an item where it is indented.
    #[tactic(auto, using(crate::proofs::LinesSaid::words))]
    fn read_words(&mut self, alloc: Global, number: usize, start: Line<'_>) -> Result<(), Problem>
        requires { IsWhole self.old }
        ensures says { TellsOf (λ _. reading_said self.new) result
            (read_words number (reading_said self.old) start.entry.rest.now) }
        ensures whole { OnOk result (IsWhole self.new) }
    {
        let mut line = start;
        let word = line.word();
        if is_word(word, b"string".as_slice()) {
            self.read_string(alloc, &mut line)
        } else if is_word(word, b"bytes".as_slice()) {
            self.read_bytes(alloc, &mut line)
        } else if is_word(word, b"file".as_slice()) {
            self.read_file(alloc, number, &mut line)
        } else if is_word(word, b"entry".as_slice()) {
            self.read_entry(alloc, number, &mut line)
        } else if is_word(word, b"end".as_slice()) {
            self.read_end(&mut line)
        } else if is_indented(start.rest) {
            line = start;
            self.read_item(alloc, number, &mut line)
        } else {
            Err(Problem::Wrong(Wrong::Word))
        }
    }

    // A line, with its number.
    #[tactic(auto, unfolding(crate::specs::Said::line_said))]
    fn read_line(&mut self, alloc: Global, number: usize, bytes: &[u8]) -> Result<(), Problem>
        requires { IsWhole self.old }
        ensures says { TellsOf (λ _. reading_said self.new) result
            (line_said number (reading_said self.old) bytes.now) }
        ensures whole { OnOk result (IsWhole self.new) }
    {
        let mut line = Line { rest: bytes };
        if line.is_over() {
            return Ok(());
        }
        match self.stage {
            Stage::Before => self.read_start(&mut line),
            Stage::Within => self.read_words(alloc, number, line),
            Stage::Behind => Err(Problem::Wrong(Wrong::Behind)),
        }
    }

    // All lines of a text; the number of the first wrong one.
    fn read_lines(&mut self, alloc: Global, text: &[u8]) -> Result<(), Unread>
        requires { IsWhole self.old }
        ensures says { TellsLines result (reading_said self.new)
            (lines_said 1 (reading_said self.old) (slice_split is_newline text.now)) }
        ensures whole { OnOk result (IsWhole self.new) }
        ensures counted { IfErr result IsCounted }
    {
        for (index, line) in text.split(|byte| *byte == b'\n').enumerate() {
            let number = index.saturating_add(1);
            if let Err(problem) = self.read_line(alloc, number, line) {
                return Err(unread(number, problem));
            }
        }
        Ok(())
    }
}

// The line behind the last of a text.
fn line_behind(text: &[u8]) -> usize
    ensures { result ≡ line_count text.now + 1 }
{
    let ended = text.iter().filter(|byte| **byte == b'\n').count();
    if ends_in(text, b'\n') {
        ended.saturating_add(1)
    } else {
        ended.saturating_add(2)
    }
}

/// What a text says (RULES, "A file as text").
///
/// # Errors
///
/// There is no memory, or a line is wrong: the first, with its number.
#[tactic(auto, unfolding(crate::specs::Said::text_said))]
pub fn parse(alloc: Global, text: &[u8]) -> Result<Form, Unread>
    // What the lines say, or the first wrong one with its number.
    ensures exact { ReadAs result (text_said text.now) }
    ensures counted { IfErr result IsCounted }
{
    let mut reading = Reading {
        form: Form {
            entries: Vec::new(alloc),
            items: Vec::new(alloc),
            bytes: Vec::new(alloc),
            files: Vec::new(alloc),
            file_lines: Vec::new(alloc),
            strings: Vec::new(alloc),
        },
        offsets: BTreeMap::new(alloc),
        stage: Stage::Before,
        has_strings: false,
        has_more: false,
    };
    reading.read_lines(alloc, text)?;
    match reading.stage {
        Stage::Before => return Err(Unread::Line(line_behind(text), Wrong::Start)),
        Stage::Within => return Err(Unread::Line(line_behind(text), Wrong::Unended)),
        Stage::Behind => {}
    }
    match reading.end_strings(alloc) {
        Ok(()) => Ok(reading.form),
        Err(_) => Err(Unread::Memory),
    }
}
