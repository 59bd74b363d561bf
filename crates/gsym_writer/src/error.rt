//! Why a file is not written, and its number (RULES, "Writing a file").
ghost use Rattle.std.specs.Prelude.{◌≡◌};
ghost use Rattle.gsym_writer.specs.Number.{error_number};

use thiserror::Error;

/// Why a file is not written: the first that holds, in this order (RULES, "Writing a file").
#[derive(Clone, Copy, Debug, PartialEq, Eq, Hash, Error)]
pub enum WriteError {
    /// An entry's address is not above that of the one before it (21).
    #[error("entry {entry} is not above the one before it")]
    NotRising {
        /// The lowest such entry, counted from 0.
        entry: usize,
    },
    /// An entry's address and size come to more than 2^64-1 (22).
    #[error("entry {entry}: the symbol ends above 2^64-1")]
    SumTooLarge {
        /// The lowest such entry, counted from 0.
        entry: usize,
    },
    /// An entry's name doesn't read: its offset is not inside the strings, no zero byte follows, or the string is not
    /// UTF-8 (29).
    #[error("entry {entry}: the name doesn't read, or is not UTF-8")]
    UnreadName {
        /// The lowest such entry, counted from 0.
        entry: usize,
    },
    /// A file's directory or its name doesn't read (29).
    #[error("file {file}: the directory or the file name doesn't read")]
    UnreadFile {
        /// The lowest such file, counted from 0.
        file: usize,
    },
    /// An item has type 0, which would end its list (30).
    #[error("entry {entry}: an item of type 0")]
    EndItem {
        /// The lowest entry that has one, counted from 0.
        entry: usize,
    },
    /// A count, a place or a length is above 4,294,967,295 (31).
    #[error("a count, a place or a length above 4,294,967,295")]
    TooLarge,
    /// The file has more bytes than are lent for it (32).
    #[error("too little room: the file has {needed} bytes")]
    TooLittleRoom {
        /// How many bytes the file has, 2^64-1 where it has more.
        needed: usize,
    },
}

impl WriteError {
    /// The number by which hosts know it (RULES, "Writing a file").
    pub fn number(self) -> u8
        ensures { result ≡ error_number self }
    {
        match self {
            WriteError::NotRising { .. } => 21,
            WriteError::SumTooLarge { .. } => 22,
            WriteError::UnreadName { .. } => 29,
            WriteError::UnreadFile { .. } => 29,
            WriteError::EndItem { .. } => 30,
            WriteError::TooLarge => 31,
            WriteError::TooLittleRoom { .. } => 32,
        }
    }
}
