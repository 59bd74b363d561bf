//! Writing a file for C hosts, over `gsym_writer`; include/gsym_write.h is its manual. A library of its own,
//! libgsym_write.a, since it takes memory, which libgsym.a never does: a list of the entries, one of the items and one
//! of the files, as `gsym_writer` has them, which it gives back before it answers.
#![tactic(auto)]

mod rows;

ghost use Rattle.std.specs.Prelude.{◌≡◌, ◌≢◌, ◌↔◌, ◌++◌, true, false, cond, IfOk, OnErr, length};
ghost use Rattle.std.specs.Prelude.{take, drop};
ghost use Rattle.gsym_layout.specs.Layout.{layout_of};
ghost use Rattle.gsym_writer.specs.Writing.{write_of};
ghost use Rattle.gsym_write_c.specs.Rows.{come_out, given_of, rows_given, rows_of};
ghost use Rattle.gsym_write_c.specs.Told.{refused_as, written_as, told_of, number_alone, left_by, IsFileOf};

use gsym_writer::{Content, WriteError};
use std::alloc::{AllocError, Global};

/// An entry that is to be written, as C has it (RULES, "Writing a file").
#[repr(C)]
#[derive(Clone, Copy, Debug, PartialEq, Eq, Default, Hash)]
pub struct GsymEntry {
    /// Where the symbol starts.
    pub addr: u64,
    /// How many items it has: the next of all items.
    pub items: u64,
    /// Its size in bytes, 0 where it covers everything from its address on.
    pub size: u32,
    /// Its name: where it starts in the strings.
    pub name: u32,
}

/// An item of an entry, as C has it (RULES, "Writing a file").
#[repr(C)]
#[derive(Clone, Copy, Debug, PartialEq, Eq, Default, Hash)]
pub struct GsymItem {
    /// How many bytes it has: the next of all bytes.
    pub len: u64,
    /// Its type.
    pub kind: u32,
}

/// A file, as C has it (RULES, "Writing a file").
#[repr(C)]
#[derive(Clone, Copy, Debug, PartialEq, Eq, Default, Hash)]
pub struct GsymFile {
    /// The directory: where it starts in the strings.
    pub directory: u32,
    /// The name of the file in it, alike.
    pub filename: u32,
}

/// What writing a file answers, as C has it (RULES, "Writing a file").
#[repr(C)]
#[derive(Clone, Copy, Debug, PartialEq, Eq, Default, Hash)]
pub struct GsymWritten {
    /// How many bytes the file has, with 0 and with 32; else 0.
    pub len: u64,
    /// Which entry or file is at fault, counted from 0; 0 where none is told.
    pub index: u64,
    /// 0 where the file is written, and else the number of the refusal.
    // A number, and no `Result`: the C interface, whose hosts test it.
    pub number: u32,
    /// 1 where `index` is a file's, else 0.
    // A number, and no enum around the index: the C interface.
    pub of_file: u32,
}

// ---- answers

// Some rows don't come out, or there is no memory: the number alone.
fn number_alone(number: u32) -> GsymWritten
    ensures { result ≡ number_alone number }
{
    GsymWritten {
        len: 0,
        index: 0,
        number,
        of_file: 0,
    }
}

// An entry or a file is at fault.
fn at_fault(number: u8, index: usize, of_file: bool) -> GsymWritten
    ensures { result ≡ (record { len = 0; index = index; number = number; of_file = cond of_file 1 0 }) }
{
    GsymWritten {
        len: 0,
        index: index as u64,
        number: u32::from(number),
        of_file: u32::from(of_file),
    }
}

impl From<WriteError> for GsymWritten {
    ghost from_gives = { λ error written. written ≡ refused_as error };

    fn from(error: WriteError) -> GsymWritten {
        let number = error.number();
        match error {
            WriteError::NotRising { entry } => at_fault(number, entry, false),
            WriteError::SumTooLarge { entry } => at_fault(number, entry, false),
            WriteError::UnreadName { entry } => at_fault(number, entry, false),
            WriteError::UnreadFile { file } => at_fault(number, file, true),
            WriteError::EndItem { entry } => at_fault(number, entry, false),
            WriteError::TooLarge => number_alone(u32::from(number)),
            WriteError::TooLittleRoom { needed } => GsymWritten {
                len: needed as u64,
                index: 0,
                number: u32::from(number),
                of_file: 0,
            },
        }
    }
}

impl From<Result<usize, WriteError>> for GsymWritten {
    ghost from_gives = { λ answer written. written ≡ written_as answer };

    fn from(answer: Result<usize, WriteError>) -> GsymWritten {
        match answer {
            Ok(len) => GsymWritten {
                len: len as u64,
                index: 0,
                number: 0,
                of_file: 0,
            },
            Err(error) => GsymWritten::from(error),
        }
    }
}

// ---- writing

// Writes what rows give that come out. An error is that there is no memory.
fn write_rows(
    alloc: Global,
    entries: &[GsymEntry],
    items: &[GsymItem],
    bytes: &[u8],
    files: &[GsymFile],
    strings: &[u8],
    out: &mut [u8],
) -> Result<Result<usize, WriteError>, AllocError>
    requires { come_out (rows_of entries.now items.now bytes.now files.now strings.now) ≡ true }
    ensures written { IfOk result (λ answer. answer
        ≡ write_of (given_of (rows_of entries.now items.now bytes.now files.now strings.now)) (length out.old)) }
    ensures left { IfOk result (λ answer. out.new
        ≡ left_by (given_of (rows_of entries.now items.now bytes.now files.now strings.now)) out.old answer) }
    ensures file { IfOk result (λ answer. IfOk answer (λ n.
        IsFileOf (given_of (rows_of entries.now items.now bytes.now files.now strings.now)) (take n out.new))) }
    ensures unchanged { OnErr result (out.new ≡ out.old) }
{
    let items = rows::items_list(alloc, items, bytes)?;
    let files = rows::files_list(alloc, files)?;
    let entries = rows::entries_list(alloc, entries, &items)?;
    let content = Content {
        entries: &entries,
        files: &files,
        strings,
    };
    Ok(gsym_writer::write(content, out))
}

/// Writes the file of what rows give to the front of `out` (RULES, "Writing a file"): the items are those of the first
/// entry, then those of the second, and so on, and so are the bytes of the items. The number is 0 where the file is
/// written, 33 where the rows don't come out, 34 where there is no memory, and else that of what refuses it.
#[unsafe(no_mangle)]
pub extern "C" fn gsym_write_1(
    alloc: Global,
    entries: &[GsymEntry],
    items: &[GsymItem],
    bytes: &[u8],
    files: &[GsymFile],
    strings: &[u8],
    out: &mut [u8],
) -> GsymWritten
    // 33 exactly where the rows don't come out, before all else;
    ensures uneven { (result.number ≡ 33)
        ↔ (come_out (rows_of entries.now items.now bytes.now files.now strings.now) ≡ false) }
    // 34 says that there was no memory, and nothing more.
    ensures no_memory { result.number ≡ 34 → result ≡ number_alone 34 }
    // Where there was, it is told what `gsym_writer::write` answers of what the rows give,
    ensures exact { result.number ≢ 34 → result
        ≡ told_of (rows_given (rows_of entries.now items.now bytes.now files.now strings.now)) (length out.old) }
    // which with 0 stands at the front of `out`, and what is behind it stays;
    ensures written { result.number ≡ 0 → out.new
        ≡ layout_of (given_of (rows_of entries.now items.now bytes.now files.now strings.now))
        ++ drop result.len out.old }
    // it says what the rows give, and passes a check exactly if each line table and each inline tree reads in full;
    ensures file { result.number ≡ 0
        → IsFileOf (given_of (rows_of entries.now items.now bytes.now files.now strings.now))
        (take result.len out.new) }
    // and all of `out` stays with every other number.
    ensures unchanged { result.number ≢ 0 → out.new ≡ out.old }
{
    if !rows::come_out(entries, items, bytes) {
        return number_alone(33);
    }
    match write_rows(alloc, entries, items, bytes, files, strings, out) {
        Ok(answer) => GsymWritten::from(answer),
        Err(_) => number_alone(34),
    }
}
