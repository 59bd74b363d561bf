//! What a check finds, and its number (RULES, "Checking a file").
ghost use Rattle.std.specs.Prelude.{◌≡◌};
ghost use Rattle.gsym_verify.specs.Finding.{fault_number, finding_number};
ghost use Rattle.gsym_verify.specs.declared.finding.Fault.TheVariants.{Refused};

use gsym_types::Refusal;
use thiserror::Error;

/// What is wrong with an entry (RULES, "Checking a file").
#[derive(Clone, Copy, Debug, PartialEq, Eq, Hash, Error)]
pub enum Fault {
    /// It is below the one before it (21).
    #[error("the address table falls here")]
    FallingTable,
    /// Base, entry and size come to more than 2^64-1 (22).
    #[error("the symbol ends above 2^64-1")]
    SumTooLarge,
    /// A line program doesn't run to its end (23).
    #[error("a line program is stopped")]
    StoppedProgram,
    /// The address data list doesn't end in type 0 (24).
    #[error("the address data list doesn't end in type 0")]
    OpenList,
    /// One that has a refusal's number: 5, 6, 9 to 13, 15.
    #[error("{0}")]
    Refused(Refusal),
}

impl From<Refusal> for Fault {
    ghost from_gives = { λ refusal fault. fault ≡ Refused refusal };

    fn from(refusal: Refusal) -> Fault {
        Fault::Refused(refusal)
    }
}

impl Fault {
    /// The number by which hosts know it (RULES, "Checking a file").
    pub fn number(self) -> u8
        ensures { result ≡ fault_number self }
    {
        match self {
            Fault::FallingTable => 21,
            Fault::SumTooLarge => 22,
            Fault::StoppedProgram => 23,
            Fault::OpenList => 24,
            Fault::Refused(refusal) => refusal.number(),
        }
    }
}

/// Why a file doesn't pass (RULES, "Checking a file").
#[derive(Clone, Copy, Debug, PartialEq, Eq, Hash, Error)]
pub enum Finding {
    /// It doesn't open: 2, 3, 4.
    #[error("{0}")]
    Tables(Refusal),
    /// Its offset size is none of 1, 2, 4 and 8 (20).
    #[error("an offset size other than 1, 2, 4 and 8")]
    OffsetSize,
    /// The lowest entry that is faulty.
    #[error("entry {index}: {fault}")]
    Entry {
        /// Which one, counted from 0.
        index: u32,
        /// Its first fault: 5, 6, 9 to 13, 15, 21 to 24.
        fault: Fault,
    },
}

impl Finding {
    /// The number by which hosts know it (RULES, "Checking a file").
    pub fn number(self) -> u8
        ensures { result ≡ finding_number self }
    {
        match self {
            Finding::Tables(refusal) => refusal.number(),
            Finding::OffsetSize => 20,
            Finding::Entry { fault, .. } => fault.number(),
        }
    }
}
