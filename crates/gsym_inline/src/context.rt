//! What goes down the tree. It stands in a file of its own, since a struct with a ghost field imports what its file
//! does.
ghost use Rattle.std.specs.Prelude.{◌≤◌};

/// What goes down the tree: the level of the nodes in hand, 1 for the root; the address asked for; where their offsets
/// count from; and how many frames there may be in all.
#[derive(Clone, Copy, Debug, PartialEq, Eq)]
pub(crate) struct Context {
    pub level: usize,
    pub addr: u64,
    pub base: u64,
    pub room: usize,
    // as many as a list of frames has places
    ghost bounded: { room ≤ 64 },
}
