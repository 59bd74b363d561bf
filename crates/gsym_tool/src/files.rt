//! Files, read whole up to a limit.
ghost use Rattle.std.specs.Prelude.{◌≡◌, ◌↔◌, ◌⊎◌, Some, IsOk, IsTrue, IfOk, IfErr, OnOk};
ghost use Rattle.gsym_types.specs.declared.Refusal.{Refusal};
ghost use Rattle.gsym_types.specs.declared.Refusal.TheVariants.{WrongMagic, WrongVersion};
ghost use Rattle.gsym_parser.specs.Header.{opened_of};
ghost use Rattle.gsym_tool.specs.Files.{Refuses, HasStart};
ghost use Rattle.gsym_tool.specs.Troubles.{IsOfFile};

use super::trouble::Trouble;
use gsym::{Address, Options, Refusal};
use std::alloc::{AllocError, Global};
use std::fs::File;
use std::io::{self, Read};

/// The most that is read of a symbol file, but for a report.
pub const MOST: usize = 1 << 30;

// How many bytes magic and version have.
const START: u64 = 6;

/// Bytes of its own.
pub fn copy(alloc: Global, bytes: &[u8]) -> Result<Vec<u8>, AllocError>
    ensures { IfOk result (λ list. list.items ≡ bytes.now) }
{
    let mut list = Vec::new(alloc);
    list.extend_from_slice(bytes)?;
    Ok(list)
}

/// The next bytes of a file, as many as there are up to a limit, behind those that are there.
pub fn read_more(file: &File, limit: u64, bytes: &mut Vec<u8>) -> io::Result<()> {
    let mut part = file.take(limit);
    part.read_to_end(bytes)?;
    Ok(())
}

// Why a file, or its first bytes, is refused.
fn refusal_of(file: &[u8]) -> Option<Refusal>
    ensures { (r : Refusal) → (result ≡ Some r) ↔ Refuses file.now r }
{
    gsym::lookup(file, Address(0), Options::NAME, &mut []).err()
}

fn is_elf(file: &[u8]) -> bool {
    file.starts_with(b"\x7fELF".as_slice())
}

fn is_swapped(file: &[u8]) -> bool {
    file.starts_with(b"GSYM".as_slice())
}

// Magic and version, of which a lookup says 3 or 4 as soon as they are there, whatever else is missing.
fn judge_start(alloc: Global, name: &[u8], file: &[u8]) -> Result<(), Trouble>
    ensures start { OnOk result (HasStart file.now) }
    ensures named { IfErr result (IsOfFile name.now) }
{
    match refusal_of(file) {
        Some(Refusal::WrongMagic) => {
            let name = copy(alloc, name)?;
            if is_elf(file) {
                return Err(Trouble::File(
                    name,
                    "an ELF file; make the symbol file with llvm-gsymutil --convert",
                ));
            }
            if is_swapped(file) {
                return Err(Trouble::File(name, "refused: 3, a GSYM file of the other byte order"));
            }
            Err(Trouble::Refused(name, Refusal::WrongMagic))
        }
        Some(Refusal::WrongVersion) => {
            Err(Trouble::Refused(copy(alloc, name)?, Refusal::WrongVersion))
        }
        _ => Ok(()),
    }
}

/// Judges all bytes, once they are there.
#[tactic(auto, using(crate::proofs::Opening::opens))]
pub fn judge(alloc: Global, name: &[u8], file: &[u8]) -> Result<(), Trouble>
    ensures opens { OnOk result (IsOk (opened_of file.now)) }
    ensures named { IfErr result (IsOfFile name.now) }
{
    if file.is_empty() {
        return Err(Trouble::File(copy(alloc, name)?, "the file is empty"));
    }
    judge_start(alloc, name, file)?;
    match refusal_of(file) {
        Some(Refusal::TooFewBytes) => {
            Err(Trouble::Refused(copy(alloc, name)?, Refusal::TooFewBytes))
        }
        _ => Ok(()),
    }
}

// An error of reading a file, with the file's name.
fn unread(alloc: Global, name: &[u8], error: io::Error) -> Trouble
    ensures { IsOfFile name.now result }
{
    match copy(alloc, name) {
        Ok(name) => Trouble::Unread(name, error),
        Err(_) => Trouble::Memory,
    }
}

fn read_named(
    alloc: Global,
    name: &[u8],
    file: &File,
    limit: u64,
    bytes: &mut Vec<u8>,
) -> Result<(), Trouble>
    ensures { IfErr result (IsOfFile name.now) }
{
    match read_more(file, limit, bytes) {
        Ok(()) => Ok(()),
        Err(error) => Err(unread(alloc, name, error)),
    }
}

fn opened(rt: &HostRuntime, name: &[u8]) -> Result<File, Trouble>
    ensures { IfErr result (IsOfFile name.now) }
{
    let alloc = rt.alloc();
    let Ok(path) = str::from_utf8(name) else {
        return Err(Trouble::File(
            copy(alloc, name)?,
            "a file name that is not UTF-8 can't be opened",
        ));
    };
    match File::open(rt, path) {
        Ok(file) => Ok(file),
        Err(error) => Err(unread(alloc, name, error)),
    }
}

// All that a file has behind the bytes that were read of it, up to so many in all.
fn read_rest(
    alloc: Global,
    name: &[u8],
    file: &File,
    most: usize,
    bytes: &mut Vec<u8>,
) -> Result<(), Trouble>
    ensures { IfErr result (IsOfFile name.now) }
{
    read_named(alloc, name, file, most as u64, bytes)?;
    if bytes.len() > most {
        return Err(Trouble::File(copy(alloc, name)?, "more than 1 GiB"));
    }
    Ok(())
}

/// The bytes of a symbol file whose header and tables read. An endless one ends at once.
pub fn symbols(rt: &HostRuntime, name: &[u8]) -> Result<Vec<u8>, Trouble>
    ensures opens { IfOk result (λ bytes. IsOk (opened_of bytes.items)) }
    ensures named { IfErr result (IsOfFile name.now) }
{
    let alloc = rt.alloc();
    let file = opened(rt, name)?;
    let mut bytes = Vec::new(alloc);
    read_named(alloc, name, &file, START, &mut bytes)?;
    judge_start(alloc, name, &bytes)?;
    read_rest(alloc, name, &file, MOST, &mut bytes)?;
    judge(alloc, name, &bytes)?;
    Ok(bytes)
}

/// The bytes of a file, whatever they are.
pub fn text_bytes(rt: &HostRuntime, name: &[u8]) -> Result<Vec<u8>, Trouble>
    ensures { IfErr result (IsOfFile name.now) }
{
    let alloc = rt.alloc();
    let file = opened(rt, name)?;
    let mut bytes = Vec::new(alloc);
    read_rest(alloc, name, &file, usize::MAX, &mut bytes)?;
    Ok(bytes)
}

// Whether magic or version is wrong, which nothing behind them mends.
fn has_wrong_start(file: &[u8]) -> bool
    ensures { IsTrue result ↔ (Refuses file.now WrongMagic ⊎ Refuses file.now WrongVersion) }
{
    matches!(
        refusal_of(file),
        Some(Refusal::WrongMagic | Refusal::WrongVersion)
    )
}

/// The bytes of a file that may be any, so many at most: all, or the first six where these are wrong, so that an
/// endless one ends at once. What it is refused for is then what the whole file is.
pub fn any_bytes(rt: &HostRuntime, name: &[u8], most: usize) -> Result<Vec<u8>, Trouble>
    ensures { IfErr result (IsOfFile name.now) }
{
    let alloc = rt.alloc();
    let file = opened(rt, name)?;
    let mut bytes = Vec::new(alloc);
    read_named(alloc, name, &file, START, &mut bytes)?;
    if !has_wrong_start(&bytes) {
        read_rest(alloc, name, &file, most, &mut bytes)?;
    }
    Ok(bytes)
}
