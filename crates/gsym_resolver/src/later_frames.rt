//! The later frames of a block as records, with positions moved up one (RULES, "Putting the answer together"): each
//! gets the call site of the one after it, the last the row's position.
ghost use Rattle.std.specs.Prelude.{◌≡◌, ◌≤◌, [], length};
ghost use Rattle.gsym_parser.specs.View.{view};
ghost use Rattle.gsym_resolver.specs.Lookup.{placed_with, later_frames};

use super::positions::call_at;
use arrayvec::ArrayVec;
use gsym_parser::GsymContext;
use gsym_types::{Frame, InlineFrame, Position, Refusal};

// Makes the records of the later frames, in an empty list with room for them. Answers the position that the symbol
// gets: the call site of the first of them, or the row's position where there is none. Refused with 6, 7 or 8.
#[inline(always)]
#[tactic(auto, using(crate::proofs::LaterFrames::later_first, crate::proofs::LaterFrames::later_step, crate::proofs::LaterFrames::later_refused, crate::proofs::LaterFrames::later_end), unfolding(crate::specs::Lookup::later_frames, crate::specs::Lookup::calls_at, crate::specs::Lookup::moved_up))]
pub(crate) fn push_later<const N: usize>(
    context: &GsymContext<'_>,
    later: &[InlineFrame],
    row: Position,
    records: &mut ArrayVec<Frame, N>,
) -> Result<Position, Refusal>
    // The frames and the list are two arguments, and no type of one says it; `lookup_by` has just cleared the list.
    requires fits { length later.now ≤ N }
    requires empty { records.old.items ≡ [] }
    ensures { placed_with result records.new.items ≡ later_frames (view context.now) row later.now }
{
    let Some((first, behind)) = later.split_first() else {
        return Ok(row);
    };
    let call = call_at(context, *first)?;
    let mut name = call.name;
    for frame in behind {
        let next = call_at(context, *frame)?;
        records.push(Frame {
            name,
            position: next.position,
        });
        name = next.name;
    }
    records.push(Frame {
        name,
        position: row,
    });
    Ok(call.position)
}
