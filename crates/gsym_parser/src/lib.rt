//! The tables of a GSYM file: its header, the search for the entry of an address, what an entry says, the rows of the
//! file table, strings by their offset, and the items of an address data list (RULES, "Header and tables", "Finding the
//! entry" and "Address data list"). Nothing is copied: a table is a place in the lent file. Only opening refuses;
//! everywhere else the caller says what a thing that doesn't read refuses.
#![tactic(auto)]

mod entries;
mod items;
mod laws;
mod opening;
mod search;
mod texts;

ghost use Rattle.gsym_parser.specs.Within.{Within};

pub use entries::{AddrInfo, FileInfo, covers};
use gsym_strtab::StrTable;
use gsym_types::Address;
pub use items::{Item, Items, parse_address_data};
pub use laws::small_file;
pub use search::{Found, is_width};

/// The first four bytes of a file, as a number (RULES, "Header and tables").
pub const MAGIC: u32 = 0x4753594d;

/// The one version that is read (RULES, "Header and tables").
pub const VERSION: u16 = 1;

/// How many bytes the header has, its 20 of the UUID included (RULES, "Header and tables").
pub const HEADER_LEN: usize = 48;

/// The header's numbers, and where each table stands (RULES, "Header and tables"). Places are counted in bytes from the
/// file's start.
// Places and not slices, since the places in answers count from the file's start too (DECISIONS, D12).
#[derive(Clone, Copy, Debug, PartialEq, Eq, Default, Hash)]
pub struct Tables {
    /// Bytes per entry of the address table, as the file has it: at other sizes than 1, 2, 4 and 8 no entry is found.
    pub offset_size: u8,
    /// What every entry is added to.
    pub base: Address,
    /// How many entries the address table has, and how many data offsets there are.
    pub count: u32,
    /// Where the address table stands.
    pub addrs: usize,
    /// Where the data offsets stand.
    pub offsets: usize,
    /// How many rows the file table has.
    pub file_count: u32,
    /// Where the file table stands.
    pub files: usize,
    /// Where the string table stands.
    pub strings: StrTable,
}

/// An opened file: its bytes, and its tables, which lie within them (RULES, "Header and tables").
// No PartialEq: it lends a whole file, and no one compares two by their bytes.
#[derive(Clone, Copy, Debug)]
pub struct GsymContext<'a> {
    /// The bytes of the file, which stay the caller's.
    pub file: &'a [u8],
    /// Its header's numbers, and where its tables stand.
    pub tables: Tables,
    ghost within: { Within file.now tables },
}
