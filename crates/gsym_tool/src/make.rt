//! Files from their text (RULES, "A file as text"), each written whole or not at all.
ghost use Rattle.std.specs.Prelude.{◌≡◌, IfErr};
ghost use Rattle.gsym_tool.specs.Troubles.{IsOfNew};

use super::files::{copy, text_bytes};
use super::options::Make;
use super::trouble::Trouble;
use gsym_form::{Form, Unmade, Unread};
use std::alloc::Global;
use std::fs::{self, File, Permissions};
use std::io::{self, Read, Write};
use std::os::unix::fs::PermissionsExt;
use std::process;

// The most that the text on standard input may have.
const MOST_TEXT: u64 = 1 << 34;

// How many names are tried for the file that takes NEW's name when it is whole.
const TRIES: u32 = 1000;

// Who may read, write and run a file.
const MODE: u32 = 0o777;

// All of standard input.
fn all_input(rt: &HostRuntime) -> Result<Vec<u8>, Trouble> {
    let mut bytes = Vec::new(rt.alloc());
    match rt.reader().take(MOST_TEXT + 1).read_to_end(&mut bytes) {
        Ok(_) if bytes.len() as u64 > MOST_TEXT => Err(Trouble::Input("more than 16 GiB")),
        Ok(_) => Ok(bytes),
        Err(error) => Err(Trouble::Read(error)),
    }
}

// The name of the text, for what is told of it.
fn source(alloc: Global, asked: &Make) -> Result<Option<Vec<u8>>, Trouble> {
    match &asked.file {
        Some(name) => Ok(Some(copy(alloc, name)?)),
        None => Ok(None),
    }
}

// What the text says.
fn form_of(alloc: Global, asked: &Make, text: &[u8]) -> Result<Form, Trouble> {
    match gsym_form::parse(alloc, text) {
        Ok(form) => Ok(form),
        Err(Unread::Memory) => Err(Trouble::Memory),
        Err(Unread::Line(line, wrong)) => {
            Err(Trouble::WrongLine(source(alloc, asked)?, line, wrong))
        }
    }
}

// The bytes of the file.
fn bytes_of(alloc: Global, asked: &Make, text: &[u8]) -> Result<Vec<u8>, Trouble> {
    let form = form_of(alloc, asked, text)?;
    match form.file(alloc) {
        Ok(bytes) => Ok(bytes),
        Err(Unmade::Memory) => Err(Trouble::Memory),
        Err(Unmade::Refused(error)) => {
            Err(Trouble::Unmade(source(alloc, asked)?, form.line_of(error), error))
        }
    }
}

// What an error of the system is told as, with the name of the file.
fn unwritten(alloc: Global, name: &[u8], error: io::Error) -> Trouble
    ensures { IsOfNew name.now result }
{
    match copy(alloc, name) {
        Ok(name) => Trouble::Unwritten(name, error),
        Err(_) => Trouble::Memory,
    }
}

// The mode of the file of a name, where there is one; what is no regular file can't be written.
fn mode_of(rt: &HostRuntime, name: &[u8], path: &str) -> Result<Option<u32>, Trouble>
    ensures { IfErr result (IsOfNew name.now) }
{
    let alloc = rt.alloc();
    match fs::metadata(rt, path) {
        Ok(found) if found.is_file() => Ok(Some(found.permissions().mode())),
        Ok(_) => Err(Trouble::File(copy(alloc, name)?, "not a regular file")),
        Err(error) if error.kind() == io::ErrorKind::NotFound => Ok(None),
        Err(error) => Err(unwritten(alloc, name, error)),
    }
}

// The folder of a path, with the slash behind it; nothing where the path is a name alone.
fn folder_of(path: &str) -> &str {
    match path.rsplit_once('/') {
        Some((folder, _)) => path.split_at(folder.len() + 1).0,
        None => "",
    }
}

// A new file in the folder of a path, and its name.
fn beside(rt: &HostRuntime, path: &str) -> io::Result<(File, String)> {
    let folder = folder_of(path);
    let process = process::id(rt.process());
    for number in 0..TRIES {
        let name = format!(in rt.alloc(); "{folder}.gsym-make-{process}-{number}")?;
        match File::create_new(rt, name.as_str()) {
            Ok(file) => return Ok((file, name)),
            Err(error) if error.kind() == io::ErrorKind::AlreadyExists => {}
            Err(error) => return Err(error),
        }
    }
    Err(io::Error::from(io::ErrorKind::AlreadyExists))
}

// Writes all bytes to a new file, which gets a mode: who may read, write and run it.
fn fill(file: &mut File, mode: Option<u32>, bytes: &[u8]) -> io::Result<()> {
    if let Some(mode) = mode {
        file.set_permissions(Permissions::from_mode(mode & MODE))?;
    }
    file.write_all(bytes)?;
    file.sync_all()
}

// Writes bytes to the file of a name, whole or not at all.
fn replace(rt: &HostRuntime, path: &str, mode: Option<u32>, bytes: &[u8]) -> io::Result<()> {
    let (file, name) = beside(rt, path)?;
    let mut file = file;
    let filled = fill(&mut file, mode, bytes);
    let done = match filled {
        Ok(()) => fs::rename(rt, name.as_str(), path),
        Err(error) => Err(error),
    };
    if done.is_err() {
        let _ = fs::remove_file(rt, name.as_str());
    }
    done
}

/// Writes the file that is asked for; the status of the run.
pub fn tell(rt: &HostRuntime, asked: &Make) -> Result<u8, Trouble> {
    let alloc = rt.alloc();
    let text = match &asked.file {
        Some(name) => text_bytes(rt, name)?,
        None => all_input(rt)?,
    };
    let bytes = bytes_of(alloc, asked, &text)?;
    let Ok(path) = str::from_utf8(&asked.output) else {
        return Err(Trouble::File(
            copy(alloc, &asked.output)?,
            "a file name that is not UTF-8 can't be opened",
        ));
    };
    let mode = mode_of(rt, &asked.output, path)?;
    match replace(rt, path, mode, &bytes) {
        Ok(()) => Ok(0),
        Err(error) => Err(unwritten(alloc, &asked.output, error)),
    }
}
