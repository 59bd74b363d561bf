//! Reports of crashes (RULES, "A report").
ghost use Rattle.std.specs.Prelude.{◌≡◌, Some, map, if◌then◌else◌, OnOk, IfOk, IfErr};
ghost use Rattle.std.specs.Io.KnownBytes.{Appends};
ghost use Rattle.gsym_printed.specs.Words.{words, address_of};
ghost use Rattle.gsym_tool.specs.Reports.{AreAddresses, json_view, json_line, json_report_of, report_text, output_of};
ghost use Rattle.gsym_tool.specs.declared.trouble.Trouble.TheVariants.{Memory};
ghost use Rattle.gsym_tool.specs.Troubles.{IsOfInput, IsOfOutput, IsOfWords};
ghost use Rattle.gsym_tool.specs.Reports.{is_known_json, all_known_json, all_known, status_of_input};

use super::addr2line::{UNKNOWN, both, flush, put, whole_answer};
use super::arguments::push;
use super::files::{any_bytes, copy, judge};
use super::options::Report;
use super::trouble::{self, Trouble};
use gsym::Address;
use gsym_printed::{Form, Outcome, View};
use std::alloc::Global;
use std::io::{self, BufWriter, Read, Write};

// The most that standard input may have of words or addresses, in bytes.
const MOST_WORDS: u64 = 1 << 30;

// The most bytes that a whole input has behind its file.
const MOST_BEHIND: u64 = gsym_report::MOST_ADDRESSES as u64 * 8;

// ---- addresses

// The address that a word is; a word that is none ends the run.
fn address_in(alloc: Global, word: &[u8]) -> Result<Address, Trouble>
    ensures address { IfOk result (λ a. Some a.0 ≡ address_of word.now) }
    ensures words { IfErr result IsOfWords }
{
    match gsym_printed::address_of(word) {
        Some(address) => Ok(Address(address)),
        None => Err(Trouble::NoAddress(copy(alloc, word)?)),
    }
}

// Those of words.
#[tactic(auto, using(crate::proofs::Addressing::addressed_next, crate::proofs::Addressing::addressed_last))]
fn addresses_of_words(alloc: Global, words: &[Vec<u8>]) -> Result<Vec<Address>, Trouble>
    ensures addresses { IfOk result (λ list. AreAddresses (map (λ w. w.items) words.now) list.items) }
    ensures words { IfErr result IsOfWords }
{
    let mut addresses = Vec::new(alloc);
    for word in words {
        push(&mut addresses, address_in(alloc, word)?)?;
    }
    Ok(addresses)
}

// Those of the words of a text.
#[tactic(auto, using(crate::proofs::Addressing::addressed_more, crate::proofs::Addressing::addressed_end))]
fn addresses_of_text(alloc: Global, text: &[u8]) -> Result<Vec<Address>, Trouble>
    ensures addresses { IfOk result (λ list. AreAddresses (words text.now) list.items) }
    ensures words { IfErr result IsOfWords }
{
    let mut addresses = Vec::new(alloc);
    let mut rest = text;
    while let Some(word) = gsym_printed::next_word(rest) {
        let (_, from) = rest.split_at(word.place);
        let (bytes, after) = from.split_at(word.len);
        push(&mut addresses, address_in(alloc, bytes)?)?;
        rest = after;
    }
    Ok(addresses)
}

// The next bytes of an input, as many as there are up to a limit, behind those that are there.
fn read_some<R: Read>(input: &mut R, limit: u64, bytes: &mut Vec<u8>) -> Result<(), Trouble>
    ensures { IfErr result IsOfInput }
{
    match input.take(limit).read_to_end(bytes) {
        Ok(_) => Ok(()),
        Err(error) => Err(Trouble::Read(error)),
    }
}

// All of standard input.
fn all_input(rt: &HostRuntime) -> Result<Vec<u8>, Trouble> {
    let mut bytes = Vec::new(rt.alloc());
    read_some(&mut rt.reader(), MOST_WORDS + 1, &mut bytes)?;
    if bytes.len() as u64 > MOST_WORDS {
        return Err(Trouble::Input("more than 1 GiB"));
    }
    Ok(bytes)
}

// A whole input, or as much of it as shows that it is none, so that an endless one ends: how many bytes its file has,
// that many, its addresses, and a byte more.
fn whole_input(rt: &HostRuntime) -> Result<Vec<u8>, Trouble>
    ensures { IfErr result IsOfInput }
{
    let mut bytes = Vec::new(rt.alloc());
    let mut input = rt.reader();
    read_some(&mut input, 4, &mut bytes)?;
    let size = gsym_reads::u32_at(&bytes, 0).unwrap_or(0);
    read_some(&mut input, u64::from(size) + MOST_BEHIND + 1, &mut bytes)?;
    Ok(bytes)
}

// The addresses that are asked for: words, or what standard input has.
fn addresses_asked(rt: &HostRuntime, asked: &Report) -> Result<Vec<Address>, Trouble> {
    let alloc = rt.alloc();
    if !asked.words.is_empty() {
        return addresses_of_words(alloc, &asked.words);
    }
    let bytes = all_input(rt)?;
    if !asked.binary {
        return addresses_of_text(alloc, &bytes);
    }
    match gsym_report::addresses_of(alloc, &bytes)? {
        Some(addresses) => Ok(addresses),
        None => Err(Trouble::Input("not a whole number of addresses of 8 bytes")),
    }
}

// ---- the report

// What `gsym addr2line --json` is asked for of an address: the crash address, or a return address.
fn json_view(index: usize) -> View
    ensures { result ≡ json_view index }
{
    View {
        form: Form::Json,
        addresses: false,
        functions: false,
        inlines: false,
        base_names: false,
        refusals: false,
        return_addresses: index != 0,
        base: Address(0),
    }
}

// The object of an address: its number, and behind that what the object of `gsym addr2line --json` has.
fn json_line(
    alloc: Global,
    file: &[u8],
    index: usize,
    address: Address,
) -> Result<(Vec<u8>, bool), Trouble>
    ensures text { IfOk result (λ line. line.0.items ≡ json_line file.now index address) }
    ensures known { IfOk result (λ line. line.1 ≡ is_known_json file.now index address) }
    ensures memory { IfErr result (λ trouble. trouble ≡ Memory) }
{
    let word = format!(in alloc; "{:x}", address.0)?;
    let (answer, outcome) = whole_answer(alloc, json_view(index), file, word.as_bytes())?;
    let start = format!(in alloc; "{{\"index\":{index},")?;
    let mut line = copy(alloc, start.as_bytes())?;
    if let Some((_brace, rest)) = answer.split_first() {
        line.extend_from_slice(rest)?;
    }
    Ok((line, matches!(outcome, Outcome::Known)))
}

// An object a line; whether each address is known.
#[tactic(auto, using(crate::proofs::Addressing::objects_end, crate::proofs::Addressing::known_last))]
fn put_json<W: Write>(
    alloc: Global,
    file: &[u8],
    addresses: &[Address],
    out: &mut W,
) -> Result<bool, Trouble>
    ensures text { OnOk result (Appends (W.contents out.old) (W.contents out.new)
        (json_report_of file.now addresses.now)) }
    ensures known { IfOk result (λ known. known ≡ all_known_json file.now addresses.now) }
    ensures output { IfErr result IsOfOutput }
{
    let mut all = true;
    for (index, address) in addresses.iter().enumerate() {
        let (line, known) = json_line(alloc, file, index, *address)?;
        put(out, &line)?;
        all = both(all, known);
    }
    Ok(all)
}

// The report in the form that is asked for; whether each address is known.
fn put_report<W: Write>(
    alloc: Global,
    json: bool,
    file: &[u8],
    addresses: &[Address],
    out: &mut W,
) -> Result<bool, Trouble>
    ensures text { OnOk result (Appends (W.contents out.old) (W.contents out.new)
        (report_text json file.now addresses.now)) }
    ensures known { IfOk result (λ known. known ≡ all_known json file.now addresses.now) }
    ensures output { IfErr result IsOfOutput }
{
    if json {
        return put_json(alloc, file, addresses, out);
    }
    match gsym_report::write_report(file, addresses, out) {
        Ok(refused) => Ok(refused == 0),
        Err(error) => Err(Trouble::Write(error)),
    }
}

// The status of a run in which each address is known, or one is not.
fn status_of(known: bool) -> u8
    ensures { result ≡ (if known then 0 else 1) }
{
    if known { 0 } else { UNKNOWN }
}

// The output of a whole input; the status of the run.
fn put_output<W: Write>(alloc: Global, json: bool, input: &[u8], out: &mut W) -> Result<u8, Trouble>
    ensures text { OnOk result (Appends (W.contents out.old) (W.contents out.new)
        (output_of json input.now)) }
    ensures status { IfOk result (λ status. status ≡ status_of_input json input.now) }
    ensures output { IfErr result IsOfOutput }
{
    match gsym_report::question_of(alloc, usize::MAX, input)? {
        Some(question) => {
            let known = put_report(alloc, json, question.file, &question.addresses, out)?;
            Ok(status_of(known))
        }
        None => {
            put(out, b"?\n")?;
            Ok(trouble::STATUS)
        }
    }
}

/// The report that is asked for; the status of the run.
pub fn tell(rt: &HostRuntime, asked: &Report) -> Result<u8, Trouble> {
    let alloc = rt.alloc();
    let mut out = match BufWriter::new(alloc, io::writer(rt)) {
        Ok(out) => out,
        Err(_) => return Err(Trouble::Memory),
    };
    let status = match &asked.file {
        Some(name) => {
            let file = any_bytes(rt, name, usize::MAX)?;
            if let Err(refused) = judge(alloc, name, &file) {
                trouble::tell(rt, &refused);
            }
            let addresses = addresses_asked(rt, asked)?;
            status_of(put_report(alloc, asked.json, &file, &addresses, &mut out)?)
        }
        None => put_output(alloc, asked.json, &whole_input(rt)?, &mut out)?,
    };
    flush(&mut out)?;
    Ok(status)
}
