//! Files as text (RULES, "A file as text").
ghost use Rattle.std.specs.Prelude.{◌≡◌, true, if◌then◌else◌, IfOk, IfErr};
ghost use Rattle.gsym_parser.specs.Search.{is_width};
ghost use Rattle.gsym_tool.specs.Troubles.{IsOfFile};

use super::addr2line::flush;
use super::files::{any_bytes, copy, judge};
use super::options::Dump;
use super::trouble::Trouble;
use gsym_parser::{GsymContext, is_width};
use std::alloc::Global;
use std::io::{self, BufWriter};

// The exit status where the information of some entry doesn't read.
const UNREAD: u8 = 1;

// An opened file whose entries can be told apart.
fn opened<'a>(alloc: Global, name: &[u8], file: &'a [u8]) -> Result<GsymContext<'a>, Trouble>
    ensures width { IfOk result (λ context. is_width context.tables.offset_size ≡ true) }
    ensures named { IfErr result (IsOfFile name.now) }
{
    judge(alloc, name, file)?;
    let context = match GsymContext::parse_header(file) {
        Ok(context) => context,
        Err(refusal) => return Err(Trouble::Refused(copy(alloc, name)?, refusal)),
    };
    if is_width(context.tables.offset_size) {
        return Ok(context);
    }
    Err(Trouble::File(
        copy(alloc, name)?,
        "refused: 20, an offset size other than 1, 2, 4 and 8",
    ))
}

// The status of a run in which the information of each entry reads, or that of one doesn't.
fn status_of(reads: bool) -> u8
    ensures { result ≡ (if reads then 0 else 1) }
{
    if reads { 0 } else { UNREAD }
}

/// Prints a file as text; the status of the run.
pub fn tell(rt: &HostRuntime, asked: &Dump) -> Result<u8, Trouble> {
    let alloc = rt.alloc();
    let file = any_bytes(rt, &asked.file, usize::MAX)?;
    let context = opened(alloc, &asked.file, &file)?;
    let mut out = match BufWriter::new(alloc, io::writer(rt)) {
        Ok(out) => out,
        Err(_) => return Err(Trouble::Memory),
    };
    match gsym_form::dump(alloc, &context, &mut out) {
        Ok(reads) => {
            flush(&mut out)?;
            Ok(status_of(reads))
        }
        Err(error) if error.kind() == io::ErrorKind::OutOfMemory => Err(Trouble::Memory),
        Err(error) => Err(Trouble::Write(error)),
    }
}
