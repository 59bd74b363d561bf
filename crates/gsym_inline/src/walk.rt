//! The judging walk: a node reader and a child-list reader that call each other, with fewer bytes left each time round
//! (RULES, "Inline tree"). Both add the frames that they come to.
ghost use Rattle.std.specs.Prelude.{◌≡◌, ◌≤◌, length};
ghost use Rattle.gsym_inline.specs.Skip.{Onward, PlaceOnward};
ghost use Rattle.gsym_inline.specs.Walk.{with_frame, with_frames, walk_list, walk_node, Added};
ghost use Rattle.gsym_inline.specs.Inherited.{inherited_of};

use super::Frames;
use super::context::Context;
use super::head::{Fault, Head};
use super::judge::judge_at;
use super::skipping::{Next, skip_all};
use gsym_types::InlineFrame;

// Adds the frame of an open node, if there is room for it. A name of 0 makes none.
#[tactic(auto, using(crate::proofs::Walks::frame_unnamed, crate::proofs::Walks::frame_full, crate::proofs::Walks::frame_added))]
fn push(context: Context, frame: InlineFrame, frames: &mut Frames) -> Result<(), Fault>
    // of two arguments, so that no type says it
    requires { length frames.old.items ≤ context.room }
    ensures exact { Added result frames.new.items (with_frame context.room frame frames.old.items) }
    ensures fits { length frames.new.items ≤ context.room }
{
    if frame.name.0 == 0 {
        return Ok(());
    }
    if context.room <= frames.len() {
        return Err(Fault::Room);
    }
    frames.push(frame);
    Ok(())
}

// Reads the judged node at `at` and all below it. There are no more frames than `context` allows.
#[cycle(children_node)]
#[tactic(auto, unfolding(crate::specs::Walk::walk_node, crate::specs::Walk::walk_from, crate::specs::Walk::open_node, crate::specs::Walk::closed_node))]
pub(crate) fn node(
    s: &[u8],
    context: Context,
    at: usize,
    frames: &mut Frames,
) -> Result<Next, Fault>
    // of two arguments, so that no type says it
    requires { length frames.old.items ≤ context.room }
    ensures exact { with_frames result frames.new.items ≡ walk_node s.now (inherited_of context) at frames.old.items }
    ensures fits { length frames.new.items ≤ context.room }
    ensures onward { Onward at (length s.now) result }
{
    match judge_at(s, context, at)? {
        Head::End(next) => Ok(Next::End(next)),
        Head::Node(node) => {
            if !node.inside {
                if node.children == 0 {
                    return Ok(Next::Past(node.next));
                }
                let next = skip_all(s, context.level + 1, node.next)?;
                return Ok(Next::Past(next));
            }
            push(context, node.frame, frames)?;
            if node.children == 0 {
                return Ok(Next::Past(node.next));
            }
            let down = Context {
                level: context.level + 1,
                addr: context.addr,
                base: node.base,
                room: context.room,
            };
            let next = children(s, down, node.next, frames)?;
            Ok(Next::Past(next))
        }
    }
}

// Reads the list of judged nodes at `at`, up to its end: the place after it.
#[cycle(children_node)]
#[tactic(auto, using(crate::proofs::Walks::walk_end, crate::proofs::Walks::walk_past, crate::proofs::Walks::walk_bad))]
pub(crate) fn children(
    s: &[u8],
    context: Context,
    at: usize,
    frames: &mut Frames,
) -> Result<usize, Fault>
    // of two arguments, so that no type says it
    requires { length frames.old.items ≤ context.room }
    ensures exact { with_frames result frames.new.items ≡ walk_list s.now (inherited_of context) at frames.old.items }
    ensures fits { length frames.new.items ≤ context.room }
    ensures onward { PlaceOnward at (length s.now) result }
{
    let mut to = at;
    // A turn takes a node with all below it: it is no element of a slice.
    loop {
        match node(s, context, to, frames)? {
            Next::End(next) => return Ok(next),
            Next::Past(next) => to = next,
        }
    }
}
