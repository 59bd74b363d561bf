//! What tools print of an answer (RULES, "What the tools print"), into bytes that the caller lends.
#![tactic(auto)]

mod frames;
mod json;
mod laws;
mod page;
mod pieces;
mod printing;
mod view;
mod words;

pub use frames::refusal_name;
pub use laws::{plain_texts, printed_examples};
pub use printing::{Outcome, Printed, answer, answers, json_text, refusal_text, shown_text};
pub use view::{Form, View};
pub use words::{address_of, next_word};
