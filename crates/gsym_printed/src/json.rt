//! An answer as one JSON object on a line.
ghost use Rattle.std.specs.Prelude.{◌≡◌, Option};
ghost use Rattle.std.specs.List.{flat_map};
ghost use Rattle.gsym.specs.CallOrder.{calls_left};
ghost use Rattle.gsym_printed.specs.Page.{put};
ghost use Rattle.gsym_printed.specs.Json.{between, quoted, quoted_text, json_paths, json_position, json_frame};
ghost use Rattle.gsym_printed.specs.Json.{json_outer, json_calls, json_start, json_symbol, json_found, json_refused};
ghost use Rattle.gsym_printed.specs.Json.{json_no_address};

use crate::frames::refusal_name;
use crate::page::{put_decimal, put_hex, put_str};
use crate::pieces::put_shown;
use crate::view::Form;
use gsym::{Answer, Call, CallChain, Position, Refusal, Text};

// What stands between the values of an object.
#[derive(Clone, Copy)]
enum Part {
    Address,
    Number,
    Refusal,
    EndRefusal,
    Start,
    Size,
    Frames,
    EndFrames,
    Name,
    Directory,
    File,
    Line,
    EndFrame,
    Comma,
    NoAddress,
    EndNoAddress,
}

#[tactic(auto, unfolding(crate::specs::Json::between))]
fn between(part: Part) -> &'static str
    ensures { result.now ≡ between part }
{
    match part {
        Part::Address => "{\"address\":\"",
        Part::Number => "\",\"number\":",
        Part::Refusal => ",\"refusal\":\"",
        Part::EndRefusal => "\"}\n",
        Part::Start => ",\"start\":\"",
        Part::Size => "\",\"size\":",
        Part::Frames => ",\"frames\":[",
        Part::EndFrames => "]}\n",
        Part::Name => "{\"name\":",
        Part::Directory => ",\"directory\":",
        Part::File => ",\"file\":",
        Part::Line => ",\"line\":",
        Part::EndFrame => "}",
        Part::Comma => ",",
        Part::NoAddress => "{\"address\":null,\"word\":",
        Part::EndNoAddress => ",\"error\":\"no address\"}\n",
    }
}

fn put_between(room: &mut [u8], at: usize, part: Part) -> usize
    ensures { (room.new, result) ≡ put (room.old, at) (between part) }
{
    put_str(room, at, between(part))
}

#[tactic(auto, using(crate::proofs::Put::putting))]
fn put_quoted(room: &mut [u8], at: usize, bytes: &[u8]) -> usize
    ensures { (room.new, result) ≡ put (room.old, at) (quoted bytes.now) }
{
    let at = put_str(room, at, "\"");
    let at = put_shown(room, at, Form::Json, bytes);
    put_str(room, at, "\"")
}

fn put_quoted_text(room: &mut [u8], at: usize, file: &[u8], text: Text) -> usize
    ensures { (room.new, result) ≡ put (room.old, at) (quoted_text file.now text) }
{
    put_quoted(room, at, gsym::text(file, text))
}

#[tactic(auto, using(crate::proofs::Put::putting), unfolding(crate::specs::Json::json_paths))]
fn put_paths(room: &mut [u8], at: usize, file: &[u8], position: Position) -> usize
    ensures { (room.new, result) ≡ put (room.old, at) (json_paths file.now position) }
{
    let at = put_between(room, at, Part::Directory);
    let at = put_quoted_text(room, at, file, position.dir);
    let at = put_between(room, at, Part::File);
    put_quoted_text(room, at, file, position.file)
}

#[tactic(auto, using(crate::proofs::Put::putting), unfolding(crate::specs::Json::json_position))]
fn put_position(room: &mut [u8], at: usize, file: &[u8], position: Option<Position>) -> usize
    ensures { (room.new, result) ≡ put (room.old, at) (json_position file.now position) }
{
    let Some(position) = position else {
        return at;
    };
    let at = put_paths(room, at, file, position);
    let at = put_between(room, at, Part::Line);
    put_decimal(room, at, u64::from(position.line.0))
}

#[tactic(auto, using(crate::proofs::Put::putting), unfolding(crate::specs::Json::json_frame))]
fn put_frame(room: &mut [u8], at: usize, file: &[u8], call: Call) -> usize
    ensures { (room.new, result) ≡ put (room.old, at) (json_frame file.now call) }
{
    let at = put_between(room, at, Part::Name);
    let at = put_quoted_text(room, at, file, call.name);
    let at = put_position(room, at, file, call.position);
    put_between(room, at, Part::EndFrame)
}

#[tactic(auto, using(crate::proofs::Put::putting), unfolding(crate::specs::Json::json_outer))]
fn put_outer(room: &mut [u8], at: usize, file: &[u8], call: Call) -> usize
    ensures { (room.new, result) ≡ put (room.old, at) (json_outer file.now call) }
{
    let at = put_between(room, at, Part::Comma);
    put_frame(room, at, file, call)
}

// The calls that are left, each behind a comma.
#[tactic(auto, using(crate::proofs::Put::put_each, crate::proofs::Put::put_none))]
fn put_outers(room: &mut [u8], at: usize, file: &[u8], calls: CallChain<'_>) -> usize
    ensures { (room.new, result)
        ≡ put (room.old, at) (flat_map (json_outer file.now) (calls_left calls.entry)) }
{
    let mut at = at;
    for call in calls {
        at = put_outer(room, at, file, call);
    }
    at
}

#[tactic(auto, using(crate::proofs::Put::putting), unfolding(crate::specs::Json::json_calls))]
fn put_calls(room: &mut [u8], at: usize, file: &[u8], calls: CallChain<'_>) -> usize
    ensures { (room.new, result) ≡ put (room.old, at) (json_calls file.now (calls_left calls.entry)) }
{
    let mut calls = calls;
    let Some(innermost) = calls.next() else {
        return at;
    };
    let at = put_frame(room, at, file, innermost);
    put_outers(room, at, file, calls)
}

// The address and the number of what became of it.
#[tactic(auto, using(crate::proofs::Put::putting), unfolding(crate::specs::Json::json_start))]
fn put_start(room: &mut [u8], at: usize, n: u64, number: u8) -> usize
    ensures { (room.new, result) ≡ put (room.old, at) (json_start n number) }
{
    let at = put_between(room, at, Part::Address);
    let at = put_hex(room, at, n);
    let at = put_between(room, at, Part::Number);
    put_decimal(room, at, u64::from(number))
}

// Where the symbol starts, and its size.
#[tactic(auto, using(crate::proofs::Put::putting), unfolding(crate::specs::Json::json_symbol))]
fn put_symbol(room: &mut [u8], at: usize, answer: Answer) -> usize
    ensures { (room.new, result) ≡ put (room.old, at) (json_symbol answer) }
{
    let at = put_between(room, at, Part::Start);
    let at = put_hex(room, at, answer.addr.0);
    let at = put_between(room, at, Part::Size);
    put_decimal(room, at, u64::from(answer.size))
}

// The answer to a known address.
#[tactic(auto, using(crate::proofs::Put::putting), unfolding(crate::specs::Json::json_found))]
pub(crate) fn put_found(
    room: &mut [u8],
    at: usize,
    file: &[u8],
    n: u64,
    answer: Answer,
    calls: CallChain<'_>,
) -> usize
    ensures { (room.new, result)
        ≡ put (room.old, at) (json_found file.now n answer (calls_left calls.entry)) }
{
    let at = put_start(room, at, n, 0);
    let at = put_symbol(room, at, answer);
    let at = put_between(room, at, Part::Frames);
    let at = put_calls(room, at, file, calls);
    put_between(room, at, Part::EndFrames)
}

// The answer to an address that is refused.
#[tactic(auto, using(crate::proofs::Put::putting), unfolding(crate::specs::Json::json_refused))]
pub(crate) fn put_json_refused(room: &mut [u8], at: usize, n: u64, refusal: Refusal) -> usize
    ensures { (room.new, result) ≡ put (room.old, at) (json_refused n refusal) }
{
    let at = put_start(room, at, n, refusal.number());
    let at = put_between(room, at, Part::Refusal);
    let at = put_str(room, at, refusal_name(refusal));
    put_between(room, at, Part::EndRefusal)
}

// The answer to a word that is no address.
#[tactic(auto, using(crate::proofs::Put::putting), unfolding(crate::specs::Json::json_no_address))]
pub(crate) fn put_json_no_address(room: &mut [u8], at: usize, word: &[u8]) -> usize
    ensures { (room.new, result) ≡ put (room.old, at) (json_no_address word.now) }
{
    let at = put_between(room, at, Part::NoAddress);
    let at = put_quoted(room, at, word);
    put_between(room, at, Part::EndNoAddress)
}
