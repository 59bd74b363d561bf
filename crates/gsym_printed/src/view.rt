//! How an answer is printed.
use gsym_types::Address;

/// The form of an answer (RULES, "What the tools print").
#[derive(Clone, Copy, Debug, PartialEq, Eq, Default, Hash)]
pub enum Form {
    /// A line for the address, one for each function, one for each position.
    #[default]
    Lines,
    /// One line a frame.
    Pretty,
    /// One JSON object a line, with all frames.
    Json,
}

/// What of an answer is printed, and which address is looked up (RULES, "What the tools print"). In JSON the form alone
/// and the two that change the address have a meaning.
// Wishes that each can stand alone, and no flag beside a value.
#[derive(Clone, Copy, Debug, PartialEq, Eq, Default, Hash)]
pub struct View {
    /// How the parts are laid out.
    pub form: Form,
    /// The address before what is known of it.
    pub addresses: bool,
    /// The function of each frame.
    pub functions: bool,
    /// All frames, and not the innermost alone.
    pub inlines: bool,
    /// Files without their directories.
    pub base_names: bool,
    /// The number and name of a refusal, and not `??`.
    pub refusals: bool,
    /// One lower is looked up than was given.
    pub return_addresses: bool,
    /// What is subtracted from an address before it is looked up.
    pub base: Address,
}
