//! Who watches a check.

/// Whoever wants to know how far a check is, as a tool that tells a terminal (RULES, "What the tools print"). What it
/// does changes nothing of what is found.
pub trait Watch {
    /// The entry of this index is about to be judged.
    fn entry(&mut self, index: u32);
}

/// Nobody.
#[derive(Drop)]
pub(crate) struct Unwatched;

impl Watch for Unwatched {
    fn entry(&mut self, _index: u32) {}
}
