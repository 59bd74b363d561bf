//! Callers of `gsym` as a repository that takes it would write them. Each is proved with no proof file: what it
//! returns, in the words of the library's clauses, that what was written lies in the list, that no difference of
//! addresses wraps, that a name is there, and that a number picks a row of a table. What a caller must know of a call
//! stands on the call.
#![tactic(auto)]

ghost use Rattle.std.specs.Prelude.{◌≡◌, ◌↔◌, ◌+◌, ◌-◌, ◌^◌, ◌≤◌, min, fold, take, length, option_map, slice_get};
ghost use Rattle.std.specs.Prelude.{[], Ok, IfOk, IfSome, IsNone, IsSome, IsErr, IsTrue, OnErr, IsErrOf, false};
ghost use Rattle.std.specs.Result.{result_map_both};
ghost use Rattle.gsym_types.specs.declared.Refusal.{Refusal};
ghost use Rattle.gsym_types.specs.Refusal.{number_of};
ghost use Rattle.gsym_strtab.specs.Strings.{part_of};
ghost use Rattle.gsym_inline.specs.Block.{block_of, room_of};
ghost use Rattle.gsym_resolver.specs.Lookup.{lookup_of, all_options, plain_options};
ghost use Rattle.gsym_resolver.specs.Met.{Met};
ghost use Rattle.gsym_types.specs.declared.Refusal.TheVariants.{UnknownAddress};
ghost use Rattle.gsym_verify.specs.declared.finding.Finding.{Finding};
ghost use Rattle.gsym_verify.specs.Faults.{IsFirstFault};
ghost use Rattle.gsym.specs.CallOrder.{calls_in_order};
ghost use Rattle.gsym.specs.Names.{IsNameIn};
ghost use Rattle.gsym_resolver.specs.WithPlaces.{bytes_of};
ghost use Rattle.gsym_report.specs.Report.{report_of};
ghost use Rattle.gsym_caller.specs.Answers.{highest_of, highest_call_line_of, innermost_name, status_of};

use gsym::{Address, Answer, Frame, Gsym, InlineFrame, LineNumber, Options, Refusal, StrOffset};
use gsym_verify::Finding;
use std::alloc::Global;
use std::io;

/// The highest line that execution had reached in the calls inlined at an address, with `gsym::lookup` and a list that
/// is lent.
pub fn highest_line(file: &[u8], addr: Address, frames: &mut [Frame]) -> Result<LineNumber, Refusal>
    ensures kept { OnErr result (frames.new ≡ frames.old) }
    ensures exact { result ≡ result_map_both (λ l. highest_of l.frames) (λ r. r)
        (lookup_of file.now addr all_options (room_of (length frames.old))) }
{
    let answer = gsym::lookup(file, addr, Options::ALL, frames)?;
    Ok(highest_of(&frames[..answer.count]))
}

/// The same of an opened file, with an array of its own.
pub fn highest_line_in(gsym: &Gsym<'_>, addr: Address) -> Result<LineNumber, Refusal>
    ensures refused { (r : Refusal) → IsErrOf result r ↔ Met gsym.now.file.now addr all_options 16 r }
    ensures exact { result ≡ result_map_both (λ l. highest_of l.frames) (λ r. r)
        (lookup_of gsym.now.file.now addr all_options 16) }
{
    let mut frames = [Frame::default(); 16];
    let found = gsym.lookup(addr, Options::ALL, &mut frames)?;
    Ok(highest_of(&frames[..found.count]))
}

// The highest line of some records, 0 where there are none.
fn highest_of(records: &[Frame]) -> LineNumber
    ensures { result ≡ highest_of records.now }
{
    LineNumber(
        records
            .iter()
            .map(|frame| frame.position.line.0)
            .fold(0, |highest, line| highest.max(line)),
    )
}

/// How many bytes an address lies past the start of its symbol.
pub fn bytes_in(gsym: &Gsym<'_>, addr: Address) -> Result<u64, Refusal>
    ensures exact { result ≡ result_map_both (λ l. addr.0 - l.answer.addr.0) (λ r. r)
        (lookup_of gsym.now.file.now addr (plain_options false) 0) }
{
    let answer = gsym.lookup(addr, Options::default(), &mut [])?;
    Ok(addr.0 - answer.addr.0)
}

/// The highest call line of a block's frames, with a list that is lent.
pub fn highest_call_line(
    block: &[u8],
    symbol: Address,
    addr: Address,
    frames: &mut [InlineFrame],
) -> Result<LineNumber, Refusal>
    ensures kept { OnErr result (frames.new ≡ frames.old) }
    ensures exact { result ≡ result_map_both highest_call_line_of (λ r. r)
        (block_of symbol.0 addr.0 (room_of (length frames.old)) block.now) }
{
    let count = gsym::block_frames(block, symbol, addr, frames)?;
    Ok(highest_call_line_of(&frames[..count]))
}

// The highest call line of some frames, 0 where there are none.
fn highest_call_line_of(frames: &[InlineFrame]) -> LineNumber
    ensures { result ≡ highest_call_line_of frames.now }
{
    LineNumber(
        frames
            .iter()
            .map(|frame| frame.call_line.0)
            .fold(0, |highest, line| highest.max(line)),
    )
}

/// The function of a block's outermost frame, with an array that has room for every frame there may be.
pub fn outermost(block: &[u8], symbol: Address, addr: Address) -> Result<Option<StrOffset>, Refusal>
    ensures exact { result ≡ result_map_both (λ fs. option_map (λ f. f.name) (slice_get fs 0)) (λ r. r)
        (block_of symbol.0 addr.0 64 block.now) }
{
    let mut frames = [InlineFrame::default(); gsym::MAX_FRAMES];
    let count = gsym::block_frames(block, symbol, addr, &mut frames)?;
    Ok(frames[..count].first().map(|frame| frame.name))
}

/// The exit status of a tool: 0 where there is an answer, and else the number of the refusal.
pub fn exit_status(gsym: &Gsym<'_>, addr: Address) -> u8
    ensures refused { IsErr (lookup_of gsym.now.file.now addr (plain_options false) 0) ↔ (1 ≤ result) × (result ≤ 15) }
    ensures exact { result ≡ status_of (lookup_of gsym.now.file.now addr (plain_options false) 0) }
{
    match gsym.lookup(addr, Options::default(), &mut []) {
        Ok(_) => 0,
        Err(refusal) => refusal.number(),
    }
}

/// Whether it helps to look the file up elsewhere, by a table that has a row for each number of a refusal.
pub fn is_of_the_file(refusal: Refusal) -> bool
    ensures { IsTrue result ↔ (2 ≤ number_of refusal) × (number_of refusal ≤ 4) }
{
    const OF_THE_FILE: [bool; 16] = [
        false, false, true, true, true, false, false, false, false, false, false, false, false,
        false, false, false,
    ];
    OF_THE_FILE[refusal.number() as usize]
}

/// The name of an answer as a string.
pub fn name_of<'a>(gsym: &Gsym<'a>, answer: &Answer) -> Option<&'a str>
    ensures bytes { IfSome result (λ name.
        name.now ≡ part_of gsym.now.file.now answer.now.name.place answer.now.name.len) }
    ensures some { IsSome result ↔ IsNameIn gsym.now.file.now answer.now.name }
{
    gsym.name(answer.name)
}

/// The name of the symbol at an address, as a string: where there is an answer, there is one.
pub fn symbol_name<'a>(gsym: &Gsym<'a>, addr: Address) -> Result<&'a str, Refusal>
    ensures refused { (r : Refusal) → IsErrOf result r ↔ Met gsym.now.file.now addr (plain_options false) 0 r }
    ensures exact { result_map_both (λ name. name.now) (λ r. r) result
        ≡ result_map_both (λ l. bytes_of gsym.now.file.now l.answer.name) (λ r. r)
        (lookup_of gsym.now.file.now addr (plain_options false) 0) }
{
    let answer = gsym.lookup(addr, Options::NAME, &mut [])?;
    Ok(gsym.name(answer.name).unwrap())
}

/// The name of the innermost function at an address: of the last call inlined there, or of the symbol. Where there is
/// an answer, there is one.
pub fn innermost<'a>(gsym: &Gsym<'a>, addr: Address) -> Result<&'a str, Refusal>
    ensures refused { (r : Refusal) → IsErrOf result r ↔ Met gsym.now.file.now addr all_options 16 r }
    ensures exact { result_map_both (λ name. name.now) (λ r. r) result
        ≡ result_map_both (λ l. bytes_of gsym.now.file.now (innermost_name l)) (λ r. r)
        (lookup_of gsym.now.file.now addr all_options 16) }
{
    let mut frames = [Frame::default(); 16];
    let found = gsym.lookup(addr, Options::ALL, &mut frames)?;
    if let Some(last) = frames[..found.count].last() {
        return Ok(gsym.name(last.name).unwrap());
    }
    Ok(gsym.name(found.name).unwrap())
}

/// How many bytes the names of all calls at an address have, the symbol's included.
pub fn names_len(gsym: &Gsym<'_>, answer: &Answer, frames: &[Frame]) -> u64
    ensures { result ≡ fold (λ len call. min (len + call.name.len) (2 ^ 64 - 1)) 0
        (calls_in_order answer.now (take answer.now.count frames.now)) }
{
    gsym.calls(answer, frames).fold(0, |len: u64, call| len.saturating_add(call.name.len as u64))
}

/// The symbol of an address in a file that passes the check, which is checked first: `None` where the address is
/// unknown (1). That a lookup refuses with another number can't be.
pub fn checked_symbol(file: &[u8], addr: Address) -> Result<Option<Answer>, Finding>
    ensures faulty { (found : Finding) → IsErrOf result found ↔ IsFirstFault file.now found }
    ensures none { IfOk result (λ answer. IsNone answer
        → Met file.now addr (plain_options false) 0 UnknownAddress) }
    ensures some { IfOk result (λ answer. IfSome answer (λ a.
        lookup_of file.now addr (plain_options false) 0 ≡ Ok (record { answer = a; frames = [] }))) }
{
    gsym_verify::check(file)?;
    match gsym::lookup(file, addr, Options::NAME, &mut []) {
        Ok(answer) => Ok(Some(answer)),
        Err(Refusal::UnknownAddress) => Ok(None),
        Err(_) => unreachable!(),
    }
}

/// The report of a crash as text, for a caller that sends it on.
pub fn report_text(alloc: Global, file: &[u8], addresses: &[Address]) -> io::Result<Vec<u8>>
    ensures { IfOk result (λ text. text.items ≡ report_of file.now addresses.now) }
{
    let mut text = Vec::new(alloc);
    gsym_report::write_report(file, addresses, &mut text)?;
    Ok(text)
}
