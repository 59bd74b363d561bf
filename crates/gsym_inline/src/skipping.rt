//! Nodes passed over with all below them, as those below a closed node are (RULES, "Inline tree", "Judging").
ghost use Rattle.std.specs.Prelude.{◌≡◌, length};
ghost use Rattle.gsym_inline.specs.Skip.{skip_list, skip_node, Onward, PlaceOnward};

use super::head::{Fault, Head, head_at};

/// Where reading goes on after a node with all below it.
// No Option: the end of the list too has a place where reading goes on.
#[derive(Clone, Copy, Debug, PartialEq, Eq)]
pub(crate) enum Next {
    /// After the end of the list, which stood instead of the node.
    End(usize),
    /// Past the node and all below it.
    Past(usize),
}

// Passes over the node at `at` and all below it: it calls itself for each child, with fewer bytes left.
#[tactic(auto, using(crate::proofs::Skips::skip_end, crate::proofs::Skips::skip_past, crate::proofs::Skips::skip_bad), unfolding(crate::specs::Skip::skip_node, crate::specs::Skip::past_node))]
pub(crate) fn skip(s: &[u8], level: usize, at: usize) -> Result<Next, Fault>
    ensures exact { result ≡ skip_node s.now level at }
    ensures onward { Onward at (length s.now) result }
{
    match head_at(s, level, at)? {
        Head::End(next) => Ok(Next::End(next)),
        Head::Node(head) => {
            if head.children == 0 {
                return Ok(Next::Past(head.next));
            }
            let down = level + 1;
            let mut to = head.next;
            // A turn takes a node with all below it: it is no element of a slice.
            loop {
                match skip(s, down, to)? {
                    Next::End(next) => return Ok(Next::Past(next)),
                    Next::Past(next) => to = next,
                }
            }
        }
    }
}

// Passes over the list of nodes at `at`, up to its end: the place after it.
#[tactic(auto, using(crate::proofs::Skips::skip_end, crate::proofs::Skips::skip_past, crate::proofs::Skips::skip_bad))]
pub(crate) fn skip_all(s: &[u8], level: usize, at: usize) -> Result<usize, Fault>
    ensures exact { result ≡ skip_list s.now level at }
    ensures onward { PlaceOnward at (length s.now) result }
{
    let mut to = at;
    // As in `skip`.
    loop {
        match skip(s, level, to)? {
            Next::End(next) => return Ok(next),
            Next::Past(next) => to = next,
        }
    }
}
