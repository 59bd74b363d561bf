//! The frames of an answer, and what stands in their place where there is none.
ghost use Rattle.std.specs.Prelude.{◌≡◌, ◌≤◌, length, Option};
ghost use Rattle.std.specs.List.{flat_map};
ghost use Rattle.gsym.specs.CallOrder.{calls_left};
ghost use Rattle.gsym_printed.specs.Page.{put};
ghost use Rattle.gsym_printed.specs.Printed.{is_pretty, is_json, after_address, after_name, before_outer};
ghost use Rattle.gsym_printed.specs.Printed.{base_len, base_name, text_of, path_text, line_text, no_place, place_text};
ghost use Rattle.gsym_printed.specs.Printed.{frame_text, outer_text, calls_text, name_of, unknown_text, refusal_line};
ghost use Rattle.gsym_printed.specs.Printed.{refused_text, address_text, no_address_line, no_frames_text};
ghost use Rattle.gsym_printed.specs.Printed.{no_address_text};

use crate::page::{put_decimal, put_str, put_wide_hex};
use crate::pieces::put_shown;
use crate::view::{Form, View};
use gsym::{Call, CallChain, LineNumber, Position, Refusal, Text};

fn is_pretty(form: Form) -> bool
    ensures { result ≡ is_pretty form }
{
    matches!(form, Form::Pretty)
}

pub(crate) fn is_json(form: Form) -> bool
    ensures { result ≡ is_json form }
{
    matches!(form, Form::Json)
}

fn after_address(form: Form) -> &'static str
    ensures { result.now ≡ after_address form }
{
    if is_pretty(form) { ": " } else { "\n" }
}

fn after_name(form: Form) -> &'static str
    ensures { result.now ≡ after_name form }
{
    if is_pretty(form) { " at " } else { "\n" }
}

fn before_outer(form: Form) -> &'static str
    ensures { result.now ≡ before_outer form }
{
    if is_pretty(form) {
        " (inlined by) "
    } else {
        ""
    }
}

fn no_place(form: Form) -> &'static str
    ensures { result.now ≡ no_place form }
{
    if is_pretty(form) { "??:?" } else { "??:0" }
}

// ---- a frame

// How many bytes at the end are no slash.
#[tactic(auto, unfolding(crate::specs::Printed::base_len))]
fn base_len(bytes: &[u8]) -> usize
    ensures within { result ≤ length bytes.now }
    ensures value { result ≡ base_len bytes.now }
{
    bytes.iter().rev().take_while(|&&byte| byte != b'/').count()
}

// The bytes behind the last slash, all where there is none.
fn base_name(bytes: &[u8]) -> &[u8]
    ensures { result.now ≡ base_name bytes.now }
{
    let (_, name) = bytes.split_at(bytes.len() - base_len(bytes));
    name
}

// A text of the file.
fn put_text(room: &mut [u8], at: usize, form: Form, file: &[u8], text: Text) -> usize
    ensures { (room.new, result) ≡ put (room.old, at) (text_of form file.now text) }
{
    put_shown(room, at, form, gsym::text(file, text))
}

// The directory, a slash and the file.
#[tactic(auto, using(crate::proofs::Put::putting), unfolding(crate::specs::Printed::path_text))]
fn put_path(room: &mut [u8], at: usize, view: View, file: &[u8], position: Position) -> usize
    ensures { (room.new, result) ≡ put (room.old, at) (path_text view file.now position) }
{
    if view.base_names {
        return put_shown(
            room,
            at,
            view.form,
            base_name(gsym::text(file, position.file)),
        );
    }
    let at = put_text(room, at, view.form, file, position.dir);
    if position.dir.len == 0 {
        return put_text(room, at, view.form, file, position.file);
    }
    let at = put_str(room, at, "/");
    put_text(room, at, view.form, file, position.file)
}

fn put_line(room: &mut [u8], at: usize, form: Form, line: LineNumber) -> usize
    ensures { (room.new, result) ≡ put (room.old, at) (line_text form line.0) }
{
    if is_pretty(form) && line.0 == 0 {
        return put_str(room, at, "?");
    }
    put_decimal(room, at, u64::from(line.0))
}

#[tactic(auto, using(crate::proofs::Put::putting))]
fn put_place(
    room: &mut [u8],
    at: usize,
    view: View,
    file: &[u8],
    position: Option<Position>,
) -> usize
    ensures { (room.new, result) ≡ put (room.old, at) (place_text view file.now position) }
{
    let Some(position) = position else {
        return put_str(room, at, no_place(view.form));
    };
    let at = put_path(room, at, view, file, position);
    let at = put_str(room, at, ":");
    put_line(room, at, view.form, position.line)
}

#[tactic(auto, using(crate::proofs::Put::putting), unfolding(crate::specs::Printed::frame_text))]
fn put_frame(room: &mut [u8], at: usize, view: View, file: &[u8], call: Call) -> usize
    ensures { (room.new, result) ≡ put (room.old, at) (frame_text view file.now call) }
{
    if !view.functions {
        let at = put_place(room, at, view, file, call.position);
        return put_str(room, at, "\n");
    }
    let at = put_text(room, at, view.form, file, call.name);
    let at = put_str(room, at, after_name(view.form));
    let at = put_place(room, at, view, file, call.position);
    put_str(room, at, "\n")
}

#[tactic(auto, using(crate::proofs::Put::putting), unfolding(crate::specs::Printed::outer_text))]
fn put_outer(room: &mut [u8], at: usize, view: View, file: &[u8], call: Call) -> usize
    ensures { (room.new, result) ≡ put (room.old, at) (outer_text view file.now call) }
{
    let at = put_str(room, at, before_outer(view.form));
    put_frame(room, at, view, file, call)
}

// The calls that are left, each as an outer one.
#[tactic(auto, using(crate::proofs::Put::put_each, crate::proofs::Put::put_none))]
fn put_outers(room: &mut [u8], at: usize, view: View, file: &[u8], calls: CallChain<'_>) -> usize
    ensures { (room.new, result)
        ≡ put (room.old, at) (flat_map (outer_text view file.now) (calls_left calls.entry)) }
{
    let mut at = at;
    for call in calls {
        at = put_outer(room, at, view, file, call);
    }
    at
}

// The calls of an answer, from the innermost one out.
#[tactic(auto, using(crate::proofs::Put::putting), unfolding(crate::specs::Printed::calls_text))]
pub(crate) fn put_calls(
    room: &mut [u8],
    at: usize,
    view: View,
    file: &[u8],
    calls: CallChain<'_>,
) -> usize
    ensures { (room.new, result) ≡ put (room.old, at) (calls_text view file.now (calls_left calls.entry)) }
{
    let mut calls = calls;
    let Some(innermost) = calls.next() else {
        return at;
    };
    let at = put_frame(room, at, view, file, innermost);
    if view.inlines {
        put_outers(room, at, view, file, calls)
    } else {
        at
    }
}

// ---- where there is no answer

/// The name of a refusal (RULES, "Refusal numbers").
#[tactic(auto, unfolding(crate::specs::Printed::name_of))]
pub fn refusal_name(refusal: Refusal) -> &'static str
    ensures { result.now ≡ name_of refusal }
{
    match refusal {
        Refusal::UnknownAddress => "no symbol covers the address",
        Refusal::TooFewBytes => "the file ends inside its header or a table",
        Refusal::WrongMagic => "not a GSYM file, or one of the other byte order",
        Refusal::WrongVersion => "a version other than 1",
        Refusal::UnreadInfo => "the symbol's information doesn't read",
        Refusal::UnreadName => {
            "the name of the symbol or of an inlined call doesn't read, or is not UTF-8"
        }
        Refusal::UnknownFile => "a file index that is not below the file count",
        Refusal::UnreadPath => "a directory or a file name doesn't read",
        Refusal::UnreadLineHeader => "the header of a line table doesn't read: it is cut short",
        Refusal::UnreadInline => "an inline block doesn't read: it is cut short",
        Refusal::InlineSumTooLarge => "an inline range starts or ends above 2^64-1",
        Refusal::CallFileTooLarge => "a call file above 4,294,967,295",
        Refusal::TooDeep => "inlined calls on more than 64 levels",
        Refusal::TooManyFrames => "more frames than there is room for",
        Refusal::TooWide => "a number wider than 64 bits: from a broken producer, not a torn file",
    }
}

#[tactic(auto, using(crate::proofs::Put::putting), unfolding(crate::specs::Printed::unknown_text))]
fn put_unknown(room: &mut [u8], at: usize, view: View) -> usize
    ensures { (room.new, result) ≡ put (room.old, at) (unknown_text view) }
{
    if !view.functions {
        return put_str(room, at, "??:0\n");
    }
    let at = put_str(room, at, if is_pretty(view.form) { "?? " } else { "??\n" });
    put_str(room, at, "??:0\n")
}

#[tactic(auto, using(crate::proofs::Put::putting), unfolding(crate::specs::Printed::refusal_line))]
fn put_refusal_line(room: &mut [u8], at: usize, refusal: Refusal) -> usize
    ensures { (room.new, result) ≡ put (room.old, at) (refusal_line refusal) }
{
    let at = put_str(room, at, "?");
    let at = put_decimal(room, at, u64::from(refusal.number()));
    let at = put_str(room, at, " ");
    let at = put_str(room, at, refusal_name(refusal));
    put_str(room, at, "\n")
}

// What stands for the frames of an address that is refused.
#[tactic(auto, using(crate::proofs::Put::putting), unfolding(crate::specs::Printed::refused_text))]
pub(crate) fn put_refused(room: &mut [u8], at: usize, view: View, refusal: Refusal) -> usize
    ensures { (room.new, result) ≡ put (room.old, at) (refused_text view refusal) }
{
    if !view.refusals {
        return put_unknown(room, at, view);
    }
    if view.functions && !is_pretty(view.form) {
        let at = put_refusal_line(room, at, refusal);
        return put_refusal_line(room, at, refusal);
    }
    put_refusal_line(room, at, refusal)
}

// ---- addresses

// The address, where it is asked for.
#[tactic(auto, using(crate::proofs::Put::putting), unfolding(crate::specs::Printed::address_text))]
pub(crate) fn put_address(room: &mut [u8], at: usize, view: View, n: u64) -> usize
    ensures { (room.new, result) ≡ put (room.old, at) (address_text view n) }
{
    if !view.addresses {
        return at;
    }
    let at = put_wide_hex(room, at, n);
    put_str(room, at, after_address(view.form))
}

// ---- a word that is no address

#[tactic(auto, using(crate::proofs::Put::putting), unfolding(crate::specs::Printed::no_address_line))]
fn put_no_address_line(room: &mut [u8], at: usize, view: View, word: &[u8]) -> usize
    ensures { (room.new, result) ≡ put (room.old, at) (no_address_line view word.now) }
{
    let at = put_str(room, at, "?? '");
    let at = put_shown(room, at, view.form, word);
    put_str(room, at, "' is no address\n")
}

#[tactic(auto, using(crate::proofs::Put::putting), unfolding(crate::specs::Page::put))]
fn put_no_frames(room: &mut [u8], at: usize, view: View, word: &[u8]) -> usize
    ensures { (room.new, result) ≡ put (room.old, at) (no_frames_text view word.now) }
{
    if !view.refusals {
        return put_unknown(room, at, view);
    }
    if view.functions && !is_pretty(view.form) {
        let at = put_no_address_line(room, at, view, word);
        return put_no_address_line(room, at, view, word);
    }
    put_no_address_line(room, at, view, word)
}

// The answer to a word that is no address.
#[tactic(auto, using(crate::proofs::Put::putting), unfolding(crate::specs::Printed::no_address_text))]
pub(crate) fn put_no_address(room: &mut [u8], at: usize, view: View, word: &[u8]) -> usize
    ensures { (room.new, result) ≡ put (room.old, at) (no_address_text view word.now) }
{
    if !view.addresses {
        return put_no_frames(room, at, view, word);
    }
    let at = put_str(room, at, "??");
    let at = put_str(room, at, after_address(view.form));
    put_no_frames(room, at, view, word)
}
