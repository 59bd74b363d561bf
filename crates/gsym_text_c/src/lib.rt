//! What tools print of an answer, for C hosts: each function hands its arguments on to `gsym_printed`. Every text goes
//! into bytes that the caller lends: its front, as far as it fits, and the answer says how many bytes it has. An object
//! of its own in libgsym.a, which a host that prints nothing doesn't link.
#![tactic(auto)]

mod laws;

ghost use Rattle.std.specs.Prelude.{◌≡◌, ◌↔◌, ◌≤◌, ◌<◌, ◌+◌, ◌∷◌, [], length, take, drop};
ghost use Rattle.gsym_types.specs.declared.Refusal.{Refusal};
ghost use Rattle.gsym_types.specs.Refusal.{number_of};
ghost use Rattle.gsym_printed.specs.declared.view.Form.TheVariants.{Lines};
ghost use Rattle.gsym_printed.specs.Answers.{answer_text, outcome_of, IsWritten};
ghost use Rattle.gsym_printed.specs.Pieces.{shown_text};
ghost use Rattle.gsym_printed.specs.Printed.{name_of};
ghost use Rattle.gsym_printed.specs.Words.{words, address_of};
ghost use Rattle.gsym_text_c.specs.Texts.{form_of, view_of, outcome_number, numbered};

use gsym::{Address, Refusal, Text};
use gsym_printed::{Form, Outcome, View};
pub use laws::view_bits;

/// What was printed, as C has it (RULES, "What the tools print").
#[repr(C)]
#[derive(Clone, Copy, Debug, PartialEq, Eq, Default, Hash)]
pub struct GsymPrinted {
    /// How many bytes the text has, whether or not they fit.
    pub len: u64,
    /// What became of the word: 0 for a known address, the number of a refusal, or 255, which no refusal has, for a
    /// word that is no address.
    pub number: u32,
}

/// A word as a number, as C has it (RULES, "What the tools print").
#[repr(C)]
#[derive(Clone, Copy, Debug, PartialEq, Eq, Default, Hash)]
pub struct GsymNumber {
    /// The number, 0 where the word is none.
    pub value: u64,
    /// 1 where it is one, else 0.
    pub is_number: u32,
}

// The form that the bits ask for.
fn form_of(bits: u32) -> Form
    ensures { result ≡ form_of bits }
{
    if bits / 64 % 2 == 1 {
        Form::Json
    } else if bits / 8 % 2 == 1 {
        Form::Pretty
    } else {
        Form::Lines
    }
}

// The view that the bits ask for, which are C's.
fn view_of(bits: u32, base: u64) -> View
    ensures { result ≡ view_of bits base }
{
    View {
        form: form_of(bits),
        addresses: bits % 2 == 1,
        functions: bits / 2 % 2 == 1,
        inlines: bits / 4 % 2 == 1,
        base_names: bits / 16 % 2 == 1,
        refusals: bits / 32 % 2 == 1,
        return_addresses: bits / 128 % 2 == 1,
        base: Address(base),
    }
}

// What became of a word, as a number.
fn outcome_number(outcome: Outcome) -> u32
    ensures { result ≡ outcome_number outcome }
{
    match outcome {
        Outcome::Known => 0,
        Outcome::Refused(refusal) => refusal.number() as u32,
        Outcome::NoAddress => 255,
    }
}

/// The answer to one word of a user, as text that ends in a newline (RULES, "What the tools print"). Bits of `view`: 0
/// addresses, 1 functions, 2 inlined calls, 3 one line a frame, 4 base names, 5 refusals, 6 JSON, 7 return addresses;
/// others are ignored.
#[unsafe(no_mangle)]
pub extern "C" fn gsym_answer_text_2(
    file: &[u8],
    view: u32,
    base: u64,
    word: &[u8],
    room: &mut [u8],
) -> GsymPrinted
    ensures text { IsWritten room.old room.new result.len
        (answer_text (view_of view base) file.now word.now) }
    ensures number { result.number ≡ outcome_number (outcome_of (view_of view base) file.now word.now) }
{
    let printed = gsym_printed::answer(view_of(view, base), file, word, room);
    GsymPrinted {
        len: printed.len as u64,
        number: outcome_number(printed.outcome),
    }
}

/// Any bytes as they may be shown on a terminal, and how many bytes that are (RULES, "What the tools print").
#[unsafe(no_mangle)]
pub extern "C" fn gsym_shown_text(bytes: &[u8], room: &mut [u8]) -> u64
    ensures { IsWritten room.old room.new result (shown_text Lines bytes.now) }
{
    gsym_printed::shown_text(bytes, room) as u64
}

/// The name of the refusal of a number, and how many bytes it has; no text where no refusal has it (RULES, "Refusal
/// numbers").
#[tactic(auto, using(gsym::proofs::Numbers::number_same, gsym::proofs::Numbers::number_range))]
#[unsafe(no_mangle)]
pub extern "C" fn gsym_refusal_text(number: u32, room: &mut [u8]) -> u64
    ensures named { (r : Refusal) → number ≡ number_of r → IsWritten room.old room.new result (name_of r) }
    ensures zero { number ≡ 0 → (result ≡ 0) × (room.new ≡ room.old) }
    ensures none { 15 < number → (result ≡ 0) × (room.new ≡ room.old) }
{
    if number > 15 {
        return 0;
    }
    match Refusal::try_from(number as u8) {
        Ok(refusal) => gsym_printed::refusal_text(refusal, room) as u64,
        Err(_) => 0,
    }
}

/// The first word of some bytes, as its place and length; a length of 0 where there is none. The words that follow are
/// those of the bytes after it (RULES, "What the tools print").
#[unsafe(no_mangle)]
pub extern "C" fn gsym_next_word_2(bytes: &[u8]) -> Text
    ensures some { 0 < result.len → words bytes.now
        ≡ take result.len (drop result.place bytes.now) ∷ words (drop result.len (drop result.place bytes.now)) }
    ensures within { result.place + result.len ≤ length bytes.now }
    ensures none { result.len ≡ 0 → words bytes.now ≡ [] }
{
    match gsym_printed::next_word(bytes) {
        Some(word) => word,
        None => Text { place: 0, len: 0 },
    }
}

/// The address that a word is (RULES, "What the tools print").
#[unsafe(no_mangle)]
pub extern "C" fn gsym_address_of_2(word: &[u8]) -> GsymNumber
    ensures { result ≡ numbered (address_of word.now) }
{
    match gsym_printed::address_of(word) {
        Some(value) => GsymNumber {
            value,
            is_number: 1,
        },
        None => GsymNumber {
            value: 0,
            is_number: 0,
        },
    }
}
