//! A text to a writer, all of it or, where the writer fails, a front of it (RULES, "A report" and "A file as text").
//! Nothing is held in memory.
//!
//!     writing   writing a text, and what a failure leaves
#![tactic(auto)]

mod writing;

pub use writing::write_text;
