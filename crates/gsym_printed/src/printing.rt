//! The answer to a word, and to all words of an input.
ghost use Rattle.std.specs.Prelude.{◌≡◌, ◌≤◌, length, Option, Some, Result};
ghost use Rattle.gsym_types.specs.declared.Refusal.{Refusal};
ghost use Rattle.gsym_resolver.specs.Lookup.{looked_up};
ghost use Rattle.gsym.specs.Lookups.{records_in};
ghost use Rattle.gsym_printed.specs.Page.{put};
ghost use Rattle.gsym_printed.specs.Pieces.{shown_text};
ghost use Rattle.gsym_printed.specs.Printed.{name_of};
ghost use Rattle.gsym_printed.specs.Answers.{options_of, asked_for, lookup_for, answer_by, no_answer, answer_text};
ghost use Rattle.gsym_printed.specs.Answers.{answers_text, outcome_by, outcome_of, IsWritten};

use crate::frames::{is_json, put_address, put_calls, put_no_address, put_refused, refusal_name};
use crate::json::{put_found, put_json_no_address, put_json_refused};
use crate::page::put_str;
use crate::pieces::put_shown;
use crate::view::{Form, View};
use crate::words::{address_of, next_word};
use gsym::{Address, Answer, Frame, MAX_FRAMES, Options, Refusal};

/// What became of a word: its address is known, or refused, or it is no address (RULES, "What the tools print").
#[derive(Clone, Copy, Debug, PartialEq, Eq, Hash)]
pub enum Outcome {
    /// The address is known.
    Known,
    /// The lookup was refused.
    Refused(Refusal),
    /// The word is no address.
    NoAddress,
}

/// What was printed (RULES, "What the tools print").
#[derive(Clone, Copy, Debug, PartialEq, Eq, Hash)]
pub struct Printed {
    /// How many bytes the text has, whether or not they fit.
    pub len: usize,
    /// What became of the word.
    pub outcome: Outcome,
}

// ---- the lookup

// What is asked for.
fn options_of(view: View) -> Options
    ensures { result ≡ options_of view }
{
    Options {
        code_info: true,
        inlining: view.functions || view.inlines || is_json(view.form),
    }
}

// The address that is looked up.
fn asked_for(view: View, n: u64) -> Option<u64>
    ensures { result ≡ asked_for view n }
{
    let a = n.checked_sub(view.base.0)?;
    a.checked_sub(u64::from(view.return_addresses))
}

// The answer for an address that the user gave. Its caller lends a list of 64, by which the room in its clause is 64.
fn lookup_for(view: View, file: &[u8], n: u64, frames: &mut [Frame]) -> Result<Answer, Refusal>
    requires { length frames.old ≡ 64 }
    ensures { looked_up result (records_in result frames.new) ≡ lookup_for view file.now (asked_for view n) }
{
    match asked_for(view, n) {
        Some(a) => gsym::lookup(file, Address(a), options_of(view), frames),
        None => Err(Refusal::UnknownAddress),
    }
}

// ---- the text

// The answer to an address that is known.
#[tactic(auto, using(crate::proofs::Put::putting))]
fn put_known(
    room: &mut [u8],
    at: usize,
    view: View,
    file: &[u8],
    n: u64,
    answer: Answer,
    frames: &[Frame],
) -> usize
    ensures { (room.new, result) ≡ put (room.old, at)
        (answer_by view file.now n (looked_up (Ok answer) (records_in (Ok answer) frames.now))) }
{
    let calls = gsym::calls(&answer, frames);
    if is_json(view.form) {
        return put_found(room, at, file, n, answer, calls);
    }
    let at = put_address(room, at, view, n);
    put_calls(room, at, view, file, calls)
}

// The answer to an address that is refused.
#[tactic(auto, using(crate::proofs::Put::putting))]
fn put_not_known(
    room: &mut [u8],
    at: usize,
    view: View,
    file: &[u8],
    n: u64,
    refusal: Refusal,
) -> usize
    ensures { (room.new, result) ≡ put (room.old, at) (answer_by view file.now n (Err refusal)) }
{
    if is_json(view.form) {
        return put_json_refused(room, at, n, refusal);
    }
    let at = put_address(room, at, view, n);
    put_refused(room, at, view, refusal)
}

// The answer to an address, and what became of it.
fn put_address_answer(room: &mut [u8], at: usize, view: View, file: &[u8], n: u64) -> Printed
    ensures text { (room.new, result.len) ≡ put (room.old, at)
        (answer_by view file.now n (lookup_for view file.now (asked_for view n))) }
    ensures outcome { result.outcome ≡ outcome_by (lookup_for view file.now (asked_for view n)) }
{
    let mut frames = [Frame::default(); MAX_FRAMES];
    match lookup_for(view, file, n, &mut frames) {
        Ok(answer) => Printed {
            len: put_known(room, at, view, file, n, answer, &frames),
            outcome: Outcome::Known,
        },
        Err(refusal) => Printed {
            len: put_not_known(room, at, view, file, n, refusal),
            outcome: Outcome::Refused(refusal),
        },
    }
}

// The answer to a word that is no address.
fn put_no_answer(room: &mut [u8], at: usize, view: View, word: &[u8]) -> usize
    ensures { (room.new, result) ≡ put (room.old, at) (no_answer view word.now) }
{
    if is_json(view.form) {
        put_json_no_address(room, at, word)
    } else {
        put_no_address(room, at, view, word)
    }
}

// The answer to a word at a place.
#[tactic(auto, unfolding(crate::specs::Answers::answer_text, crate::specs::Answers::outcome_of))]
fn put_answer(room: &mut [u8], at: usize, view: View, file: &[u8], word: &[u8]) -> Printed
    ensures text { (room.new, result.len) ≡ put (room.old, at) (answer_text view file.now word.now) }
    ensures outcome { result.outcome ≡ outcome_of view file.now word.now }
{
    match address_of(word) {
        Some(n) => put_address_answer(room, at, view, file, n),
        None => Printed {
            len: put_no_answer(room, at, view, word),
            outcome: Outcome::NoAddress,
        },
    }
}

// ---- what users call

/// The answer to one word of a user, as text that ends in a newline. Its front goes to the front of `room`, as far as
/// that fits, and what is past it stays (RULES, "What the tools print").
pub fn answer(view: View, file: &[u8], word: &[u8], room: &mut [u8]) -> Printed
    ensures text { IsWritten room.old room.new result.len (answer_text view file.now word.now) }
    ensures outcome { result.outcome ≡ outcome_of view file.now word.now }
{
    put_answer(room, 0, view, file, word)
}

/// The answers to all words of an input, one after the other in their order, and how many bytes they have; written as
/// `answer` writes (RULES, "What the tools print").
#[tactic(auto, using(crate::proofs::Put::put_each))]
pub fn answers(view: View, file: &[u8], input: &[u8], room: &mut [u8]) -> usize
    ensures { IsWritten room.old room.new result (answers_text view file.now input.now) }
{
    let mut at = 0;
    let mut rest = input;
    while let Some(word) = next_word(rest) {
        let (_, from) = rest.split_at(word.place);
        let (bytes, after) = from.split_at(word.len);
        at = put_answer(room, at, view, file, bytes).len;
        rest = after;
    }
    at
}

/// Any bytes as they may be shown on a terminal, and how many bytes that are; written as `answer` writes (RULES, "What
/// the tools print").
pub fn shown_text(bytes: &[u8], room: &mut [u8]) -> usize
    ensures { IsWritten room.old room.new result (shown_text Form.Lines bytes.now) }
{
    put_shown(room, 0, Form::Lines, bytes)
}

/// Any bytes as they stand in a string of JSON, and how many bytes that are; written as `answer` writes (RULES, "What
/// the tools print").
pub fn json_text(bytes: &[u8], room: &mut [u8]) -> usize
    ensures { IsWritten room.old room.new result (shown_text Form.Json bytes.now) }
{
    put_shown(room, 0, Form::Json, bytes)
}

/// The name of a refusal, and how many bytes it has; written as `answer` writes (RULES, "Refusal numbers").
pub fn refusal_text(refusal: Refusal, room: &mut [u8]) -> usize
    ensures { IsWritten room.old room.new result (name_of refusal) }
{
    put_str(room, 0, refusal_name(refusal))
}
