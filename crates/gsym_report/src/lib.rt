//! The report of a crash (RULES, "A report"): which functions a crash address and the return addresses behind it stand
//! for, as lines of text that go to a writer. Nothing but its input is held in memory.
//!
//!     lookups   what is looked up
//!     lines     the lines of an address, and all of them
//!     input     file and addresses in one input
//!     running   from a reader to a writer
//!     laws      what the definitions say of every report
#![tactic(auto)]

mod input;
mod laws;
mod lines;
mod lookups;
mod running;

pub use gsym::Address;
pub use input::{MOST_ADDRESSES, Question, addresses_of, question_of};
pub use laws::{plain_reports, report_examples, report_laws};
pub use lines::write_report;
pub use running::{MOST_FILE, MOST_READ, run};
