//! Header and tables of a file.
ghost use Rattle.std.specs.Prelude.{◌≡◌};
ghost use Rattle.gsym_tool.specs.Files.{uuid_of};

use super::files::{copy, symbols};
use super::options::Info;
use super::trouble::Trouble;
use gsym_parser::{GsymContext, Tables};
use std::alloc::Global;
use std::io::{self, Write};

// The place of the byte that says how long the UUID is, that of the UUID, and the most bytes that it has (RULES,
// "Header and tables").
const UUID_LEN: usize = 7;

const UUID: usize = 28;

const UUID_MOST: usize = 20;

fn uuid(file: &[u8]) -> &[u8]
    ensures { result.now ≡ uuid_of file.now }
{
    if file.len() < UUID + UUID_MOST {
        return &file[..0];
    }
    let len = usize::from(file[UUID_LEN]).min(UUID_MOST);
    &file[UUID..UUID + len]
}

// The UUID as a build id, in hexadecimal digits.
fn push_build_id(text: &mut Vec<u8>, uuid: &[u8]) -> io::Result<()> {
    for byte in uuid {
        write!(text, "{byte:02x}")?;
    }
    Ok(())
}

// The line of the build id.
fn push_build_id_line(text: &mut Vec<u8>, uuid: &[u8]) -> io::Result<()> {
    write!(text, "build id           ")?;
    if uuid.is_empty() {
        return writeln!(text, "none");
    }
    push_build_id(text, uuid)?;
    writeln!(text, "")
}

// A table: its name, its place and how many bytes it has.
fn push_table(text: &mut Vec<u8>, name: &str, place: usize, size: u64) -> io::Result<()> {
    writeln!(text, "{name}{size} bytes at {place}")
}

fn push_json_table(text: &mut Vec<u8>, name: &str, place: usize, size: u64) -> io::Result<()> {
    write!(text, ",\"{name}\":{{\"place\":{place},\"size\":{size}}}")
}

// What is told, as lines.
fn push_lines(text: &mut Vec<u8>, file: &[u8], t: Tables) -> io::Result<()> {
    let count = u64::from(t.count);
    writeln!(text, "version            1")?;
    writeln!(text, "base address       0x{:x}", t.base.0)?;
    writeln!(text, "entry count        {count}")?;
    writeln!(text, "offset size        {}", t.offset_size)?;
    writeln!(text, "file count         {}", t.file_count)?;
    push_build_id_line(text, uuid(file))?;
    push_table(
        text,
        "address table      ",
        t.addrs,
        count * u64::from(t.offset_size),
    )?;
    push_table(text, "data offset table  ", t.offsets, count * 4)?;
    push_table(
        text,
        "file table         ",
        t.files,
        u64::from(t.file_count) * 8,
    )?;
    push_table(
        text,
        "string table       ",
        t.strings.place,
        t.strings.size as u64,
    )?;
    writeln!(text, "file size          {} bytes", file.len())
}

// The same as one JSON object.
fn push_json(text: &mut Vec<u8>, file: &[u8], t: Tables) -> io::Result<()> {
    let count = u64::from(t.count);
    write!(
        text,
        "{{\"version\":1,\"base_address\":\"0x{:x}\",\"entry_count\":{count}",
        t.base.0
    )?;
    write!(
        text,
        ",\"offset_size\":{},\"file_count\":{}",
        t.offset_size, t.file_count
    )?;
    write!(text, ",\"build_id\":\"")?;
    push_build_id(text, uuid(file))?;
    write!(text, "\"")?;
    push_json_table(
        text,
        "address_table",
        t.addrs,
        count * u64::from(t.offset_size),
    )?;
    push_json_table(text, "data_offset_table", t.offsets, count * 4)?;
    push_json_table(text, "file_table", t.files, u64::from(t.file_count) * 8)?;
    push_json_table(text, "string_table", t.strings.place, t.strings.size as u64)?;
    writeln!(text, ",\"file_size\":{}}}", file.len())
}

fn info_text(alloc: Global, json: bool, file: &[u8], t: Tables) -> io::Result<Vec<u8>> {
    let mut text = Vec::new(alloc);
    if json {
        push_json(&mut text, file, t)?;
    } else {
        push_lines(&mut text, file, t)?;
    }
    Ok(text)
}

/// Tells what a file has; the status of the run.
pub fn tell(rt: &HostRuntime, asked: &Info) -> Result<u8, Trouble> {
    let alloc = rt.alloc();
    let file = symbols(rt, &asked.file)?;
    let tables = match GsymContext::parse_header(&file) {
        Ok(opened) => opened.tables,
        Err(refusal) => return Err(Trouble::Refused(copy(alloc, &asked.file)?, refusal)),
    };
    let Ok(text) = info_text(alloc, asked.json, &file, tables) else {
        return Err(Trouble::Memory);
    };
    match io::writer(rt).write_all(&text) {
        Ok(()) => Ok(0),
        Err(error) => Err(Trouble::Write(error)),
    }
}
