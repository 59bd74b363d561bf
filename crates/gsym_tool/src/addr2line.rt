//! Answers to words and to standard input, as `gsym_printed` has them.
ghost use Rattle.std.specs.Prelude.{◌≡◌, ◌↔◌, ◌<◌, ◌&&◌, length, IsTrue, OnOk, IfOk, IfErr, IfSome};
ghost use Rattle.std.specs.List.{flat_map, list_all};
ghost use Rattle.std.specs.Io.KnownBytes.{Appends, Keeps};
ghost use Rattle.std.specs.Io.BufRead.{take_through, DropsThrough};
ghost use Rattle.gsym_printed.specs.Answers.{answer_text, answers_text, outcome_of};
ghost use Rattle.gsym_tool.specs.declared.trouble.Trouble.TheVariants.{Memory};
ghost use Rattle.gsym_tool.specs.Known.{is_known_word, all_known};
ghost use Rattle.gsym_tool.specs.Troubles.{IsOfInput, IsOfOutput, IsOfStreams};

use super::files::symbols;
use super::options::Answers;
use super::trouble::{Trouble, told_word};
use gsym_printed::{Outcome, View};
use std::alloc::Global;
use std::io::{self, BufRead, BufReader, BufWriter, Write};

/// The exit status where an address is not known, or, of `gsym addr2line`, a word is none.
pub const UNKNOWN: u8 = 1;

// The text of an answer, where all of it fits; else how many bytes it has.
#[tactic(auto, using(crate::proofs::Whole::whole))]
fn fitting(room: Vec<u8>, view: View, file: &[u8], word: &[u8]) -> Result<(Vec<u8>, Outcome), usize>
    ensures text { IfOk result (λ t. t.0.items ≡ answer_text view file.now word.now) }
    ensures outcome { IfOk result (λ t. t.1 ≡ outcome_of view file.now word.now) }
    ensures short { IfErr result (λ len. length room.items < len) }
{
    let mut room = room;
    let printed = gsym_printed::answer(view, file, word, &mut room);
    if printed.len > room.len() {
        return Err(printed.len);
    }
    room.truncate(printed.len);
    Ok((room, printed.outcome))
}

/// The text of an answer, all of it.
pub fn whole_answer(
    alloc: Global,
    view: View,
    file: &[u8],
    word: &[u8],
) -> Result<(Vec<u8>, Outcome), Trouble>
    ensures text { IfOk result (λ t. t.0.items ≡ answer_text view file.now word.now) }
    ensures outcome { IfOk result (λ t. t.1 ≡ outcome_of view file.now word.now) }
    ensures memory { IfErr result (λ trouble. trouble ≡ Memory) }
{
    match fitting(vec![in alloc; 0u8; 512]?, view, file, word) {
        Ok(text) => Ok(text),
        Err(len) => match fitting(vec![in alloc; 0u8; len]?, view, file, word) {
            Ok(text) => Ok(text),
            // It doesn't come: an answer has as many bytes the second time.
            Err(_) => Err(Trouble::Memory),
        },
    }
}

/// Writes to standard output.
pub fn put<W: Write>(out: &mut W, text: &[u8]) -> Result<(), Trouble>
    ensures text { OnOk result (Appends (W.contents out.old) (W.contents out.new) text.now) }
    ensures output { IfErr result IsOfOutput }
{
    match out.write_all(text) {
        Ok(()) => Ok(()),
        Err(error) => Err(Trouble::Write(error)),
    }
}

// Tells of a word that is no address, where that can be told.
fn complain<E: Write>(alloc: Global, errors: &mut E, word: &[u8]) {
    if let Ok(line) = told_word(alloc, word) {
        let _ = errors.write_all(&line);
    }
}

// One answer; whether the address is known.
fn answer_word<W: Write, E: Write>(
    alloc: Global,
    view: View,
    file: &[u8],
    word: &[u8],
    out: &mut W,
    errors: &mut E,
) -> Result<bool, Trouble>
    ensures text { OnOk result (Appends (W.contents out.old) (W.contents out.new)
        (answer_text view file.now word.now)) }
    ensures known { IfOk result (λ known. known ≡ is_known_word view file.now word.now) }
    ensures output { IfErr result IsOfOutput }
{
    let (text, outcome) = whole_answer(alloc, view, file, word)?;
    if matches!(outcome, Outcome::NoAddress) {
        complain(alloc, errors, word);
    }
    put(out, &text)?;
    Ok(matches!(outcome, Outcome::Known))
}

/// Whether all so far and one more are known.
pub fn both(all: bool, known: bool) -> bool
    ensures { result ≡ (all && known) }
{
    all && known
}

/// One answer for each word of a list, in their order; whether each is known.
fn answer_words<W: Write, E: Write>(
    alloc: Global,
    view: View,
    file: &[u8],
    words: &[Vec<u8>],
    out: &mut W,
    errors: &mut E,
) -> Result<bool, Trouble>
    ensures text { OnOk result (Appends (W.contents out.old) (W.contents out.new)
        (flat_map (λ w. answer_text view file.now w.items) words.now)) }
    ensures known { IfOk result (λ known. known ≡ list_all (λ w. is_known_word view file.now w.items) words.now) }
    ensures output { IfErr result IsOfOutput }
{
    let mut all = true;
    for word in words {
        let known = answer_word(alloc, view, file, word.as_slice(), out, errors)?;
        all = both(all, known);
    }
    Ok(all)
}

// One answer for each word of a line, in their order; whether each is known.
#[tactic(auto, using(crate::proofs::Knowing::known_next, crate::proofs::Knowing::known_ended))]
fn answer_line<W: Write, E: Write>(
    alloc: Global,
    view: View,
    file: &[u8],
    line: &[u8],
    out: &mut W,
    errors: &mut E,
) -> Result<bool, Trouble>
    ensures text { OnOk result (Appends (W.contents out.old) (W.contents out.new)
        (answers_text view file.now line.now)) }
    ensures known { IfOk result (λ known. known ≡ all_known view file.now line.now) }
    ensures output { IfErr result IsOfOutput }
{
    let mut all = true;
    let mut rest = line;
    while let Some(word) = gsym_printed::next_word(rest) {
        let (_, from) = rest.split_at(word.place);
        let (bytes, after) = from.split_at(word.len);
        let known = answer_word(alloc, view, file, bytes, out, errors)?;
        all = both(all, known);
        rest = after;
    }
    Ok(all)
}

// The next line of an input, with its newline; none at the end.
fn next_line<R: BufRead>(input: &mut R, line: &mut Vec<u8>) -> Result<(), Trouble>
    ensures line { OnOk result (IfSome (R.remaining input.old) (λ xs. line.new.items ≡ take_through 10 xs)) }
    ensures rest { OnOk result (DropsThrough (R.remaining input.old) (R.remaining input.new) 10) }
    ensures input { IfErr result IsOfInput }
{
    line.clear();
    match input.read_until(10, line) {
        Ok(_) => Ok(()),
        Err(error) => Err(Trouble::Read(error)),
    }
}

fn is_nothing(text: &[u8]) -> bool
    ensures { IsTrue result ↔ (length text.now ≡ 0) }
{
    text.is_empty()
}

// One answer for each word of an input, in their order, where its bytes are known; whether each is known. The answers
// of a line are written before the next line is read.
#[tactic(auto, using(crate::proofs::Lines::left_start, crate::proofs::Knowing::known_start))]
fn answer_input<R: BufRead, W: Write, E: Write>(
    alloc: Global,
    view: View,
    file: &[u8],
    input: &mut R,
    out: &mut W,
    errors: &mut E,
) -> Result<bool, Trouble>
    ensures text { OnOk result (IfSome (R.remaining input.old)
        (λ xs. Appends (W.contents out.old) (W.contents out.new) (answers_text view file.now xs))) }
    ensures known { IfOk result (λ known. IfSome (R.remaining input.old) (λ xs. known ≡ all_known view file.now xs)) }
    ensures streams { IfErr result IsOfStreams }
{
    let mut all = true;
    let mut line = Vec::new(alloc);
    for _turn in 0..u64::MAX {
        next_line(input, &mut line)?;
        let text = line.as_slice();
        if is_nothing(text) {
            return Ok(all);
        }
        let known = answer_line(alloc, view, file, text, out, errors)?;
        all = both(all, known);
        flush(out)?;
    }
    // It doesn't come: no input has so many lines.
    Err(Trouble::Memory)
}

pub fn flush<W: Write>(out: &mut W) -> Result<(), Trouble>
    ensures kept { Keeps (W.contents out.old) (W.contents out.new) }
    ensures output { IfErr result IsOfOutput }
{
    match out.flush() {
        Ok(()) => Ok(()),
        Err(error) => Err(Trouble::Write(error)),
    }
}

/// All answers; the status of the run.
pub fn answer_all(rt: &HostRuntime, asked: &Answers) -> Result<u8, Trouble> {
    let alloc = rt.alloc();
    let file = symbols(rt, &asked.file)?;
    let mut errors = rt.stderr();
    let mut out = match BufWriter::new(alloc, io::writer(rt)) {
        Ok(out) => out,
        Err(_) => return Err(Trouble::Memory),
    };
    let all = if asked.words.is_empty() {
        let mut input = match BufReader::new(alloc, rt.reader()) {
            Ok(input) => input,
            Err(_) => return Err(Trouble::Memory),
        };
        answer_input(alloc, asked.view, &file, &mut input, &mut out, &mut errors)?
    } else {
        answer_words(
            alloc,
            asked.view,
            &file,
            &asked.words,
            &mut out,
            &mut errors,
        )?
    };
    flush(&mut out)?;
    Ok(if all { 0 } else { UNKNOWN })
}
