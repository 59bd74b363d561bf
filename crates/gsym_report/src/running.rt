//! From a reader to a writer: what `report_main` does.
ghost use Rattle.std.specs.Prelude.{◌≡◌, OnOk, OnErr, IfSome, IfOk};
ghost use Rattle.std.specs.Io.KnownBytes.{Appends, Consumes};
ghost use Rattle.gsym_report.specs.Input.{output_of};
ghost use Rattle.gsym_output.specs.Writing.{AppendsFront, Writes};

use crate::input::{MOST_ADDRESSES, question_of};
use crate::lines::write_report;
use gsym_output::write_text;
use std::alloc::Global;
use std::io::{self, Read, Write};

/// The most bytes that the file of an input may have for `run`: 48 KiB.
pub const MOST_FILE: usize = 49152;

/// How many bytes `run` reads at most: one more than an input can have. What is longer is none, whatever comes after.
pub const MOST_READ: u64 = 4 + MOST_FILE as u64 + MOST_ADDRESSES as u64 * 8 + 1;

// The output of an input.
fn write_output<W: Write>(alloc: Global, input: &[u8], out: &mut W) -> io::Result<()>
    ensures { Writes (W.contents out.old) (W.contents out.new) result (output_of input.now) }
{
    match question_of(alloc, MOST_FILE, input)? {
        Some(question) => {
            write_report(question.file, &question.addresses, out)?;
            Ok(())
        }
        None => write_text(out, b"?\n"),
    }
}

// An input, or as much of it as shows that it is none.
fn read_input<R: Read>(alloc: Global, input: &mut R) -> io::Result<Vec<u8>>
    ensures { IfOk result (λ bytes. IfSome (R.remaining input.old) (λ all. output_of bytes.items ≡ output_of all)) }
{
    let mut bytes = Vec::new(alloc);
    input.take(MOST_READ).read_to_end(&mut bytes)?;
    Ok(bytes)
}

/// Reads an input to its end and writes its output: the report of its file and its addresses, or `?` and a newline
/// where it is none (RULES, "A report"). A file may have up to `MOST_FILE` bytes; of what is longer than an input can
/// be no more is read than shows it. Where reading fails nothing is written; where writing fails a front of the output.
pub fn run<R: Read, W: Write>(alloc: Global, input: &mut R, out: &mut W) -> io::Result<()>
    // The output of all that the reader had left is written, and nothing else.
    ensures written { OnOk result (IfSome (R.remaining input.old) (λ bytes.
        Appends (W.contents out.old) (W.contents out.new) (output_of bytes))) }
    // A front of it at an error.
    ensures front { OnErr result (IfSome (R.remaining input.old) (λ bytes.
        AppendsFront (W.contents out.old) (W.contents out.new) (output_of bytes))) }
{
    let bytes = read_input(alloc, input)?;
    write_output(alloc, &bytes, out)?;
    out.flush()
}
