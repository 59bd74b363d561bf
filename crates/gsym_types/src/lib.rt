//! The values that every other crate speaks of: kinds of number, texts as places, what is asked for, what is answered,
//! and why there is no answer. Nothing is read here.
#![tactic(auto)]

ghost use Rattle.std.specs.Prelude.{◌≡◌, ◌≤◌};
ghost use Rattle.gsym_types.specs.Refusal.{number_of, IsNumbered};

use thiserror::Error;

/// An address of the program whose symbols the file has (RULES, "Finding the entry").
#[repr(C)]
#[derive(Clone, Copy, Debug, PartialEq, Eq, PartialOrd, Ord, Default, Hash)]
pub struct Address(pub u64);

/// Where a string starts, in bytes from the start of the string table (RULES, "Strings").
#[repr(C)]
#[derive(Clone, Copy, Debug, PartialEq, Eq, PartialOrd, Ord, Default, Hash)]
pub struct StrOffset(pub u32);

/// A row of the file table, counted from 0 (RULES, "Putting the answer together").
#[repr(C)]
#[derive(Clone, Copy, Debug, PartialEq, Eq, PartialOrd, Ord, Default, Hash)]
pub struct FileIndex(pub u32);

/// A line of a source file (RULES, "Line table").
#[repr(C)]
#[derive(Clone, Copy, Debug, PartialEq, Eq, PartialOrd, Ord, Default, Hash)]
pub struct LineNumber(pub u32);

/// A string by where it stands: place counted from the file's start, and length, both in bytes (RULES, "Strings").
#[repr(C)]
#[derive(Clone, Copy, Debug, PartialEq, Eq, Default, Hash)]
pub struct Text {
    /// Where it starts, in bytes from the start of the file.
    pub place: usize,
    /// How many bytes it has.
    pub len: usize,
}

/// A source position: directory and file name, which may be any bytes, and line (RULES, "Putting the answer together").
#[repr(C)]
#[derive(Clone, Copy, Debug, PartialEq, Eq, Default, Hash)]
pub struct Position {
    /// The directory, which may be empty.
    pub dir: Text,
    /// The name of the file in it.
    pub file: Text,
    /// The line of that file.
    pub line: LineNumber,
}

/// What a lookup is asked for beside the symbol: its source position, and the calls inlined at the address. Inlining
/// without code info asks for nothing more than neither (RULES, "Calls").
// Two wishes, of which each can stand alone, and no flag beside a value.
#[derive(Clone, Copy, Debug, PartialEq, Eq, Default, Hash)]
pub struct Options {
    /// The source position.
    pub code_info: bool,
    /// The calls inlined at the address.
    pub inlining: bool,
}

impl Options {
    /// Position and inlined calls (RULES, "Calls").
    pub const ALL: Options = Options {
        code_info: true,
        inlining: true,
    };

    /// The position alone (RULES, "Calls").
    pub const CODE_INFO: Options = Options {
        code_info: true,
        inlining: false,
    };

    /// Neither: the symbol alone (RULES, "Calls").
    pub const NAME: Options = Options {
        code_info: false,
        inlining: false,
    };
}

/// What a lookup answers of the symbol of an address (RULES, "Putting the answer together").
// The size stands last: in front of the name it would leave a gap, and the name would be copied with the gap.
#[derive(Clone, Copy, Debug, PartialEq, Eq, Default, Hash)]
pub struct Answer {
    /// Where the symbol starts.
    pub addr: Address,
    /// Its name, which is UTF-8.
    pub name: Text,
    /// The position that execution had reached in it, if one is asked for and known.
    pub position: Option<Position>,
    /// How many records were written to the front of the lent list.
    pub count: usize,
    /// Its size in bytes, 0 where it covers everything from its start on.
    pub size: u32,
}

/// A call that was inlined, as a block has it: its function, and where it was called (RULES, "Inline tree").
#[repr(C)]
#[derive(Clone, Copy, Debug, PartialEq, Eq, Default, Hash)]
pub struct InlineFrame {
    /// The name of the function.
    pub name: StrOffset,
    /// The file in which it was called.
    pub call_file: FileIndex,
    /// The line at which it was called, 4,294,967,295 where the block has one above.
    pub call_line: LineNumber,
}

/// A record of a lookup: a call inlined into the symbol, and the position that execution had reached in it (RULES,
/// "Putting the answer together").
#[repr(C)]
#[derive(Clone, Copy, Debug, PartialEq, Eq, Default, Hash)]
pub struct Frame {
    /// The name of the function, which is UTF-8.
    pub name: Text,
    /// The position that execution had reached in it.
    pub position: Position,
}

/// The most frames that a block may have (RULES, "Inline tree").
pub const MAX_FRAMES: usize = 64;

/// Why there is no answer, by number (RULES, "Refusal numbers").
#[derive(Clone, Copy, Debug, PartialEq, Eq, PartialOrd, Ord, Hash, Error)]
pub enum Refusal {
    #[error("no symbol covers the address")]
    UnknownAddress,
    #[error("the file ends inside its header or a table")]
    TooFewBytes,
    #[error("not a GSYM file, or one of the other byte order")]
    WrongMagic,
    #[error("a version other than 1")]
    WrongVersion,
    #[error("the symbol's information doesn't read")]
    UnreadInfo,
    #[error("the name of the symbol or of an inlined call doesn't read, or is not UTF-8")]
    UnreadName,
    #[error("a file index that is not below the file count")]
    UnknownFile,
    #[error("a directory or a file name doesn't read")]
    UnreadPath,
    #[error("the header of a line table doesn't read: it is cut short")]
    UnreadLineHeader,
    #[error("an inline block doesn't read: it is cut short")]
    UnreadInline,
    #[error("an inline range starts or ends above 2^64-1")]
    InlineSumTooLarge,
    #[error("a call file above 4,294,967,295")]
    CallFileTooLarge,
    #[error("inlined calls on more than 64 levels")]
    TooDeep,
    #[error("more frames than there is room for")]
    TooManyFrames,
    #[error("a number wider than 64 bits: from a broken producer, not a torn file")]
    TooWide,
}

impl Refusal {
    /// The number by which hosts know it (RULES, "Refusal numbers").
    pub fn number(self) -> u8
        ensures value { result ≡ number_of self }
        ensures range { (1 ≤ result) × (result ≤ 15) }
    {
        match self {
            Refusal::UnknownAddress => 1,
            Refusal::TooFewBytes => 2,
            Refusal::WrongMagic => 3,
            Refusal::WrongVersion => 4,
            Refusal::UnreadInfo => 5,
            Refusal::UnreadName => 6,
            Refusal::UnknownFile => 7,
            Refusal::UnreadPath => 8,
            Refusal::UnreadLineHeader => 9,
            Refusal::UnreadInline => 10,
            Refusal::InlineSumTooLarge => 11,
            Refusal::CallFileTooLarge => 12,
            Refusal::TooDeep => 13,
            Refusal::TooManyFrames => 14,
            Refusal::TooWide => 15,
        }
    }
}

/// A number that no refusal has, and that number itself (RULES, "Refusal numbers").
#[derive(Clone, Copy, Debug, PartialEq, Eq, Hash, Error)]
#[error("no refusal has the number {0}")]
pub struct UnknownNumber(pub u8);

impl TryFrom<u8> for Refusal {
    type Error = UnknownNumber;

    ghost try_from_gives = { IsNumbered };

    fn try_from(number: u8) -> Result<Self, UnknownNumber> {
        match number {
            1 => Ok(Refusal::UnknownAddress),
            2 => Ok(Refusal::TooFewBytes),
            3 => Ok(Refusal::WrongMagic),
            4 => Ok(Refusal::WrongVersion),
            5 => Ok(Refusal::UnreadInfo),
            6 => Ok(Refusal::UnreadName),
            7 => Ok(Refusal::UnknownFile),
            8 => Ok(Refusal::UnreadPath),
            9 => Ok(Refusal::UnreadLineHeader),
            10 => Ok(Refusal::UnreadInline),
            11 => Ok(Refusal::InlineSumTooLarge),
            12 => Ok(Refusal::CallFileTooLarge),
            13 => Ok(Refusal::TooDeep),
            14 => Ok(Refusal::TooManyFrames),
            15 => Ok(Refusal::TooWide),
            _ => Err(UnknownNumber(number)),
        }
    }
}
