//! A tree checked at every node (RULES, "Checking a file").
ghost use Rattle.std.specs.Prelude.{◌≡◌, length};
ghost use Rattle.gsym_inline.specs.Skip.{Onward};
ghost use Rattle.gsym_inline.specs.Checked.{checked_node};
ghost use Rattle.gsym_inline.specs.Inherited.{inherited_of};

use super::context::Context;
use super::head::{Fault, Head};
use super::judge::judge_at;
use super::skipping::Next;

// Checks the node at `at` and all below it: it calls itself for each child, with fewer bytes left.
#[tactic(auto, using(crate::proofs::CheckedLists::checked_end, crate::proofs::CheckedLists::checked_past, crate::proofs::CheckedLists::checked_bad), unfolding(crate::specs::Checked::checked_node, crate::specs::Checked::checked_from))]
pub(crate) fn check_node(s: &[u8], context: Context, at: usize) -> Result<Next, Fault>
    ensures exact { result ≡ checked_node s.now (inherited_of context) at }
    ensures onward { Onward at (length s.now) result }
{
    match judge_at(s, context, at)? {
        Head::End(next) => Ok(Next::End(next)),
        Head::Node(node) => {
            if node.children == 0 {
                return Ok(Next::Past(node.next));
            }
            let base = node.base;
            let mut to = node.next;
            // A turn takes a node with all below it: it is no element of a slice.
            loop {
                let down = Context {
                    level: context.level + 1,
                    addr: context.addr,
                    base,
                    room: context.room,
                };
                match check_node(s, down, to)? {
                    Next::End(next) => return Ok(Next::Past(next)),
                    Next::Past(next) => to = next,
                }
            }
        }
    }
}
