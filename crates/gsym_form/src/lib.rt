//! What a file says, as text (RULES, "A file as text"): printed from a file, and read into what a file can be written
//! from.
//!
//!     printing    a file's text
//!     reading     what a text says, line by line
//!     line        the words of a line: numbers, texts in quotes, bytes in hexadecimal digits
//!     form        what a text says, as lists, and the file that is written from them
//!     wrong       why a line is none
//!     laws        what the definitions say of texts
#![tactic(auto)]

mod form;
mod laws;
mod line;
mod printing;
mod reading;
mod wrong;

pub use form::{Form, FormEntry, FormItem, Unmade};
pub use laws::{made_again, reads_exactly, text_examples, text_reads_back, written_as_said};
pub use printing::dump;
pub use reading::parse;
pub use wrong::{Unread, Wrong};
