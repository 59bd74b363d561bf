//! What an entry of the address table says: size and name of its symbol, and the bytes of its address data list; and
//! the rows of the file table (RULES, "Header and tables" and "Finding the entry").
ghost use Rattle.std.specs.Prelude.{◌≡◌, ◌+◌, ◌<◌, ◌≤◌, ◌⊎◌, ◌↔◌, option_map, length, IsNone, IsSomeAnd};
ghost use Rattle.gsym_parser.specs.Entries.{offset_at, info_at, info_view, covered_by, file_at};
ghost use Rattle.gsym_parser.specs.View.{view};

use super::GsymContext;
use gsym_types::{Address, FileIndex, StrOffset};

/// What an entry says of its symbol (RULES, "Finding the entry").
#[derive(Clone, Copy, Debug, PartialEq, Eq, Default, Hash)]
pub struct AddrInfo<'a> {
    /// The symbol's size in bytes, 0 where it covers everything from its address on.
    pub size: u32,
    /// The symbol's name.
    pub name: StrOffset,
    /// The bytes after that, to the file's end: the address data list of the entry stands at their front.
    pub data: &'a [u8],
}

/// A row of the file table (RULES, "Header and tables").
#[derive(Clone, Copy, Debug, PartialEq, Eq, Default, Hash)]
pub struct FileInfo {
    /// The directory.
    pub directory: StrOffset,
    /// The name of the file in it.
    pub filename: StrOffset,
}

impl<'a> GsymContext<'a> {
    /// What an entry says. None where the index is not below the count, and where fewer than 8 bytes are there
    /// (RULES, "Finding the entry").
    #[tactic(auto, unfolding(crate::specs::Entries::info_at, crate::specs::Entries::info_in, gsym_reads::specs::Fronts::u32_front))]
    pub fn addr_info(&self, index: usize) -> Option<AddrInfo<'a>>
        ensures exact { option_map info_view result ≡ info_at (view self.now) index }
        ensures none { IsNone result ↔ (self.now.tables.count ≤ index)
            ⊎ IsSomeAnd (offset_at (view self.now) index) (λ place. length self.now.file.now < place + 8) }
    {
        let place = self.data_offset(index)?;
        let info = self.file.get(place as usize..)?;
        let (size, rest) = gsym_reads::u32_front(info)?;
        let (name, data) = gsym_reads::u32_front(rest)?;
        Some(AddrInfo {
            size,
            name: StrOffset(name),
            data,
        })
    }

    // The data offset of an entry.
    #[tactic(auto, unfolding(crate::specs::Entries::offset_at, gsym_reads::specs::Fronts::u32_front))]
    fn data_offset(&self, index: usize) -> Option<u32>
        ensures exact { result ≡ offset_at (view self.now) index }
        ensures none { IsNone result ↔ (self.now.tables.count ≤ index) }
    {
        if index >= self.tables.count as usize {
            return None;
        }
        let offsets = &self.file[self.tables.offsets + index * 4..];
        let (place, _) = gsym_reads::u32_front(offsets)?;
        Some(place)
    }

    /// The row of the file table at an index. None where the index is not below the file count (RULES, "Header
    /// and tables").
    #[tactic(auto, unfolding(crate::specs::Entries::file_at, gsym_reads::specs::Fronts::u32_front))]
    pub fn file_info(&self, index: FileIndex) -> Option<FileInfo>
        ensures exact { result ≡ file_at (view self.now) index }
        ensures none { IsNone result ↔ (self.now.tables.file_count ≤ index.0) }
    {
        if index.0 >= self.tables.file_count {
            return None;
        }
        let row = &self.file[self.tables.files + index.0 as usize * 8..];
        let (directory, row) = gsym_reads::u32_front(row)?;
        let (filename, _) = gsym_reads::u32_front(row)?;
        Some(FileInfo {
            directory: StrOffset(directory),
            filename: StrOffset(filename),
        })
    }
}

/// Whether a symbol covers an address: size 0 covers everything from the symbol's address on, another size that many
/// bytes, the end not included (RULES, "Finding the entry"). No sum is made, so none wraps.
#[tactic(auto, unfolding(crate::specs::Entries::covered_by))]
pub fn covers(addr: Address, symbol: Address, size: u32) -> bool
    ensures { result ≡ covered_by addr symbol size }
{
    if addr.0 < symbol.0 {
        return false;
    }
    if size == 0 {
        return true;
    }
    let past = addr.0 - symbol.0;
    past < u64::from(size)
}
