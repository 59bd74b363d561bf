//! Why a text is none of a file (RULES, "A file as text").
ghost use Rattle.std.specs.Prelude.{◌≡◌};
ghost use Rattle.gsym_form.specs.declared.wrong.Problem.TheVariants.{Memory, Wrong};

use std::alloc::AllocError;
use thiserror::Error;

/// What is wrong with a line (RULES, "A file as text").
#[derive(Clone, Copy, Debug, PartialEq, Eq, Hash, Error)]
pub enum Wrong {
    /// The first line that says anything isn't `gsym 1`.
    #[error("the first line is not 'gsym 1'")]
    Start,
    /// It begins with no word of the form.
    #[error("no line begins so")]
    Word,
    /// A line of strings stands behind one of a file or an entry.
    #[error("strings stand before all files and entries")]
    LateStrings,
    /// A text is missing, doesn't end, or has a byte or a backslash in it that is none of a text.
    #[error("a text in quotes is missing or wrong")]
    Text,
    /// A number is missing, is none, or is too large.
    #[error("a number is missing or wrong")]
    Number,
    /// At the offset before a text there is no string, or another.
    #[error("the string at this offset is another, or doesn't read")]
    OtherString,
    /// A text can't be added to strings that don't end in a zero byte, or would have an offset above 4,294,967,295.
    #[error("no text can be added to these strings")]
    FullStrings,
    /// An item has no entry above it.
    #[error("an item with no entry above it")]
    NoEntry,
    /// The bytes of an item are no pairs of hexadecimal digits.
    #[error("the bytes of an item are not pairs of hexadecimal digits")]
    Hex,
    /// An entry whose information didn't read.
    #[error("an entry whose information didn't read")]
    UnreadEntry,
    /// It stands behind the line `end`.
    #[error("a line behind 'end'")]
    Behind,
    /// The text has no line `end`: something of it may be missing.
    #[error("the text doesn't end in 'end'")]
    Unended,
    /// Something stands behind all that the line may have.
    #[error("too many words")]
    TooMany,
}

/// Why a text was not read.
#[derive(Clone, Copy, Debug, PartialEq, Eq, Hash)]
pub enum Unread {
    /// There is no memory.
    Memory,
    /// The first wrong line, counted from 1.
    Line(usize, Wrong),
}

// What ends the reading of a line.
#[derive(Clone, Copy)]
pub(crate) enum Problem {
    Memory,
    Wrong(Wrong),
}

impl From<AllocError> for Problem {
    ghost from_gives = { λ _ problem. problem ≡ Memory };

    fn from(_error: AllocError) -> Problem {
        Problem::Memory
    }
}

impl From<Wrong> for Problem {
    ghost from_gives = { λ wrong problem. problem ≡ Wrong wrong };

    fn from(wrong: Wrong) -> Problem {
        Problem::Wrong(wrong)
    }
}
