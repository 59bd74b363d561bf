//! The lines of a report.
ghost use Rattle.std.specs.Prelude.{◌≡◌, ◌≤◌, ◌++◌, OnOk, OnErr, IfOk, length, codes, decimal};
ghost use Rattle.std.specs.List.{flat_map, count_by};
ghost use Rattle.std.specs.Io.KnownBytes.{Appends};
ghost use Rattle.gsym_resolver.specs.Lookup.{looked_up};
ghost use Rattle.gsym.specs.CallOrder.{calls_left};
ghost use Rattle.gsym.specs.Lookups.{records_in};
ghost use Rattle.gsym_output.specs.Lines.{ended, text_of};
ghost use Rattle.gsym_output.specs.Writing.{AppendsFront, Writes};
ghost use Rattle.gsym_report.specs.Report.{is_control, plain_len, shown_name, name_in, line_of, lines_of};
ghost use Rattle.gsym_report.specs.Report.{lookup_for, lookups_of, is_refused, refusal_said, report_of};

use crate::lookups::lookup_for;
use gsym::{Address, CallChain, Frame, MAX_FRAMES, Refusal};
use gsym_output::write_text;
use itoa::Buffer;
use std::io::{self, Write};

fn is_control(byte: u8) -> bool
    ensures { result ≡ is_control byte }
{
    byte < 32 || byte == 127
}

// How many bytes stand before the first control byte.
fn plain_len(name: &[u8]) -> usize
    ensures within { result ≤ length name.now }
    ensures value { result ≡ plain_len name.now }
{
    name.iter().take_while(|&&byte| !is_control(byte)).count()
}

// A name, with a question mark for each control byte.
#[tactic(auto, using(gsym_output::proofs::Fronts::leads_start, gsym_output::proofs::Fronts::leads_end))]
fn write_name<W: Write>(out: &mut W, name: &[u8]) -> io::Result<()>
    ensures { Writes (W.contents out.old) (W.contents out.new) result (shown_name name.now) }
{
    let mut rest = name;
    while !rest.is_empty() {
        let (plain, from) = rest.split_at(plain_len(rest));
        write_text(out, plain)?;
        let Some((_control, behind)) = from.split_first() else {
            return Ok(());
        };
        write_text(out, b"?")?;
        rest = behind;
    }
    Ok(())
}

// The number of an address, and a blank.
#[tactic(auto, using(gsym_output::proofs::Fronts::writes_then, gsym_output::proofs::Fronts::front_of))]
fn write_index<W: Write>(out: &mut W, index: usize) -> io::Result<()>
    ensures { Writes (W.contents out.old) (W.contents out.new) result (decimal index ++ codes " ") }
{
    let mut buffer = Buffer::new();
    write_text(out, buffer.format(index).as_bytes())?;
    write_text(out, b" ")
}

// The line of a name.
#[tactic(auto, using(gsym_output::proofs::Fronts::writes_then, gsym_output::proofs::Fronts::front_of))]
fn write_line<W: Write>(out: &mut W, index: usize, name: &[u8]) -> io::Result<()>
    ensures { Writes (W.contents out.old) (W.contents out.new) result
        (ended (line_of index (shown_name name.now))) }
{
    write_index(out, index)?;
    write_name(out, name)?;
    write_text(out, b"\n")
}

// A question mark, and the number of a refusal.
#[tactic(auto, using(gsym_output::proofs::Fronts::writes_then, gsym_output::proofs::Fronts::front_of))]
fn write_number<W: Write>(out: &mut W, refusal: Refusal) -> io::Result<()>
    ensures { Writes (W.contents out.old) (W.contents out.new) result (refusal_said refusal) }
{
    let mut buffer = Buffer::new();
    write_text(out, b"?")?;
    write_text(out, buffer.format(refusal.number()).as_bytes())
}

// The line of a refusal.
#[tactic(auto, using(gsym_output::proofs::Fronts::writes_then, gsym_output::proofs::Fronts::front_of))]
fn write_refusal<W: Write>(out: &mut W, index: usize, refusal: Refusal) -> io::Result<()>
    ensures { Writes (W.contents out.old) (W.contents out.new) result
        (ended (line_of index (refusal_said refusal))) }
{
    write_index(out, index)?;
    write_number(out, refusal)?;
    write_text(out, b"\n")
}

// The lines of the calls of an answer.
#[tactic(auto, using(gsym_output::proofs::Fronts::leads_start, gsym_output::proofs::Fronts::leads_end))]
fn write_calls<W: Write>(
    out: &mut W,
    file: &[u8],
    index: usize,
    calls: CallChain<'_>,
) -> io::Result<()>
    ensures { Writes (W.contents out.old) (W.contents out.new) result
        (flat_map (λ call. ended (line_of index (shown_name (name_in file.now call)))) (calls_left calls.entry)) }
{
    for call in calls {
        write_line(out, index, gsym::text(file, call.name))?;
    }
    Ok(())
}

// The lines of an address, and whether it was refused. What `frames` has before and after is nobody's.
#[tactic(auto, using(crate::proofs::LineTexts::calls_text))]
fn write_address<W: Write>(
    out: &mut W,
    file: &[u8],
    index: usize,
    address: Address,
    frames: &mut [Frame; MAX_FRAMES],
) -> io::Result<bool>
    ensures lines { Writes (W.contents out.old) (W.contents out.new) result
        (text_of (lines_of file.now index address)) }
    ensures refused { IfOk result (λ refused. refused ≡ is_refused (lookup_for file.now index address)) }
{
    match lookup_for(file, index, address, frames) {
        Ok(answer) => {
            write_calls(out, file, index, gsym::calls(&answer, frames))?;
            Ok(false)
        }
        Err(refusal) => {
            write_refusal(out, index, refusal)?;
            Ok(true)
        }
    }
}

/// Writes the report of a file and of the addresses of a crash, first the crash address, then the return addresses
/// (RULES, "A report"); and answers how many of them were refused. The file may be any bytes. Where the writer fails,
/// its error is answered, and a front of the report was written. It allocates nothing, and writes in small pieces, so
/// that a file or a pipe wants a `BufWriter` before it.
#[tactic(auto, using(gsym_output::proofs::Fronts::leads_start))]
pub fn write_report<W: Write>(file: &[u8], addresses: &[Address], out: &mut W) -> io::Result<usize>
    // The report of all addresses is written, in their order, and nothing else.
    ensures written { OnOk result (Appends (W.contents out.old) (W.contents out.new)
        (report_of file.now addresses.now)) }
    // A front of it where the writer fails.
    ensures front { OnErr result (AppendsFront (W.contents out.old) (W.contents out.new)
        (report_of file.now addresses.now)) }
    // So many of the addresses are refused.
    ensures refused { IfOk result (λ count. count ≡ count_by is_refused (lookups_of file.now addresses.now)) }
{
    // One list for all addresses, filled once.
    let mut frames = [Frame::default(); MAX_FRAMES];
    let mut refused = 0;
    for (index, address) in addresses.iter().enumerate() {
        refused += usize::from(write_address(out, file, index, *address, &mut frames)?);
    }
    Ok(refused)
}
