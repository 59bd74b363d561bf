//! What a text says, as lists, and the file that is written from them (RULES, "A file as text" and "Writing a file").
ghost use Rattle.std.specs.Prelude.{◌≡◌, ◌++◌, ℕ, map, length, drop, IfOk, OnErr, Err};
ghost use Rattle.gsym_parser.specs.Items.{item_view};
ghost use Rattle.gsym_layout.specs.Layout.{layout_of};
ghost use Rattle.gsym_writer.specs.declared.error.WriteError.{WriteError};
ghost use Rattle.gsym_writer.specs.View.{entry_view};
ghost use Rattle.gsym_writer.specs.Writing.{write_of};
ghost use Rattle.gsym_form.specs.declared.form.Unmade.TheVariants.{Memory, Refused};
ghost use Rattle.gsym_form.specs.Form.{part_of, item_given, entry_given, given_by, WrittenAs, first_end, end_line, line_of};

use gsym_writer::{Address, Content, Entry, FileInfo, Item, StrOffset, WriteError};
use std::alloc::{AllocError, Global};

/// An entry.
#[derive(Clone, Copy)]
pub struct FormEntry {
    /// Where the symbol starts.
    pub addr: Address,
    /// Its size in bytes.
    pub size: u32,
    /// Its name.
    pub name: StrOffset,
    /// Where its items begin in the list of all, and where they end.
    pub first: usize,
    pub end: usize,
    /// Its line, counted from 1.
    pub line: usize,
}

/// An item.
#[derive(Clone, Copy)]
pub struct FormItem {
    /// Its type.
    pub kind: u32,
    /// Its line, counted from 1.
    pub line: usize,
    /// Where its bytes begin in those of all, and where they end.
    pub first: usize,
    pub end: usize,
}

/// What a text says (RULES, "A file as text").
#[derive(Drop)]
pub struct Form {
    /// The entries, in the order of their lines.
    pub entries: Vec<FormEntry>,
    /// The items of all entries, one after another.
    pub items: Vec<FormItem>,
    /// The bytes of all items, one after another.
    pub bytes: Vec<u8>,
    /// The files, in the order of their lines.
    pub files: Vec<FileInfo>,
    /// The line of each file, counted from 1.
    pub file_lines: Vec<usize>,
    /// The bytes of the string table.
    pub strings: Vec<u8>,
}

/// Why no file was made.
#[derive(Clone, Copy, Debug, PartialEq, Eq, Hash)]
pub enum Unmade {
    /// There is no memory.
    Memory,
    /// It is refused.
    Refused(WriteError),
}

impl From<AllocError> for Unmade {
    ghost from_gives = { λ _ unmade. unmade ≡ Memory };

    fn from(_error: AllocError) -> Unmade {
        Unmade::Memory
    }
}

impl From<WriteError> for Unmade {
    ghost from_gives = { λ error unmade. unmade ≡ Refused error };

    fn from(error: WriteError) -> Unmade {
        Unmade::Refused(error)
    }
}

// The part of a list from an index up to another, none where it has none there.
#[tactic(auto, unfolding(crate::specs::Form::part_of))]
fn part<T>(list: &[T], first: usize, end: usize) -> &[T]
    ensures { result.now ≡ part_of first end list.now }
{
    if first <= end && end <= list.len() {
        &list[first..end]
    } else {
        &list[..0]
    }
}

// The items, with their bytes.
fn items_of<'a>(
    alloc: Global,
    items: &[FormItem],
    bytes: &'a [u8],
) -> Result<Vec<Item<'a>>, AllocError>
    ensures { IfOk result (λ list. map item_view list.items ≡ map (item_given bytes.now) items.now) }
{
    let mut list = Vec::new(alloc);
    for item in items {
        list.push(Item {
            kind: item.kind,
            bytes: part(bytes, item.first, item.end),
        })?;
    }
    Ok(list)
}

// The entries, with their items.
fn entries_of<'a>(
    alloc: Global,
    entries: &[FormEntry],
    items: &'a [Item<'a>],
) -> Result<Vec<Entry<'a>>, AllocError>
    ensures { IfOk result (λ list.
        map entry_view list.items ≡ map (entry_given (map item_view items.now)) entries.now) }
{
    let mut list = Vec::new(alloc);
    for entry in entries {
        list.push(Entry {
            addr: entry.addr,
            size: entry.size,
            name: entry.name,
            items: part(items, entry.first, entry.end),
        })?;
    }
    Ok(list)
}

// The line of the first item of type 0.
fn first_end(items: &[FormItem]) -> Option<usize>
    ensures { result ≡ first_end items.now }
{
    for item in items {
        if item.kind == 0 {
            return Some(item.line);
        }
    }
    None
}

impl Form {
    /// Writes the file of what the text says to the front of lent bytes (RULES, "Writing a file"): how many it has.
    ///
    /// # Errors
    ///
    /// There is no memory, or the writer refuses it.
    pub fn write(&self, alloc: Global, out: &mut [u8]) -> Result<usize, Unmade>
        // It is written or refused as `gsym_writer::write` has it;
        ensures exact { WrittenAs result (write_of (given_by self.now) (length out.old)) }
        // the file stands at the front, and what is behind it stays;
        ensures written { IfOk result (λ n. (n ≡ length (layout_of (given_by self.now)))
            × (out.new ≡ layout_of (given_by self.now) ++ drop n out.old)) }
        // and all of it, where nothing is written.
        ensures unchanged { OnErr result (out.new ≡ out.old) }
    {
        let items = items_of(alloc, &self.items, &self.bytes)?;
        let entries = entries_of(alloc, &self.entries, &items)?;
        let content = Content {
            entries: &entries,
            files: &self.files,
            strings: &self.strings,
        };
        Ok(gsym_writer::write(content, out)?)
    }

    /// The file of what the text says.
    ///
    /// # Errors
    ///
    /// There is no memory, or the writer refuses it.
    #[tactic(auto, using(crate::proofs::Parts::front_of))]
    pub fn file(&self, alloc: Global) -> Result<Vec<u8>, Unmade>
        // It is the file of what the text says,
        ensures file { IfOk result (λ file. file.items ≡ layout_of (given_by self.now)) }
        // and what refuses it refuses it to some room.
        ensures refused { (e : WriteError) → result ≡ Err (Refused e)
            → (room : ℕ) × (write_of (given_by self.now) room ≡ Err e) }
    {
        let needed = match self.write(alloc, &mut []) {
            Ok(len) => len,
            Err(Unmade::Refused(WriteError::TooLittleRoom { needed })) => needed,
            Err(unmade) => return Err(unmade),
        };
        let mut file = vec![in alloc; 0u8; needed]?;
        let len = self.write(alloc, &mut file)?;
        file.truncate(len);
        Ok(file)
    }

    // The line of the first item of type 0 that an entry has.
    fn end_line(&self, entry: &FormEntry) -> Option<usize>
        ensures { result ≡ end_line self.now entry.now }
    {
        first_end(part(&self.items, entry.first, entry.end))
    }

    /// The line that a refusal is about, counted from 1, where it is about one.
    pub fn line_of(&self, error: WriteError) -> Option<usize>
        ensures { result ≡ line_of self.now error }
    {
        match error {
            WriteError::NotRising { entry }
            | WriteError::SumTooLarge { entry }
            | WriteError::UnreadName { entry } => Some(self.entries.get(entry)?.line),
            WriteError::EndItem { entry } => self.end_line(self.entries.get(entry)?),
            WriteError::UnreadFile { file } => self.file_lines.get(file).copied(),
            WriteError::TooLarge | WriteError::TooLittleRoom { .. } => None,
        }
    }
}
